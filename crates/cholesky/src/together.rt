// L L' x = b for lines of points that share the factor. The lines are solved together, row after row: what a row of one line waits for was done in the row before, and
// the lines do not wait for each other. Rows and lines go by their numbers, from which their places follow.
ghost use Rattle.std.specs.Prelude.{ℕ, ◌*◌, ◌≤◌, length};
ghost use Rattle.places.specs.Loops.{each, down};
ghost use Rattle.cholesky.specs.Cholesky.{forward_row, back_row, substitute_symmetric_band};
ghost use Rattle.cholesky.specs.Together.{SolvableLines, EachLine, TakesLine, MakesLine};

// The step in each line. What its calls make of a line is theirs to say.
fn each_line<F: Fn(&mut [f64])>(poles: &mut [f64], lines: usize, n: usize, step: F)
    requires fits { 3 * (lines * n) ≤ length poles.old }
    requires takes { TakesLine n (F.pre step) }
    ensures { (g : _) → MakesLine n (F.post step) g → EachLine n lines (λ (r : ℕ). g) poles.old poles.new }
{
    for r in 0..lines {
        let p = 3 * (r * n);
        step(&mut poles[p..p + 3 * n]);
    }
}

// L y = b in place, in each line.
fn forward_together(lower: &[f64], poles: &mut [f64], lines: usize, h: usize, n: usize)
    requires { SolvableLines lines h n lower.now poles.old }
    ensures { EachLine n lines (λ (r : ℕ). each 0 n (forward_row h lower.now)) poles.old poles.new }
{
    for i in 0..n {
        let row = move |line: &mut [f64]| super::forward_row(lower, line, h, i);
        each_line(poles, lines, n, row);
    }
}

// L' x = y in place, in each line.
fn back_together(lower: &[f64], poles: &mut [f64], lines: usize, h: usize, n: usize)
    requires { SolvableLines lines h n lower.now poles.old }
    ensures { EachLine n lines (λ (r : ℕ). down n (back_row h n lower.now)) poles.old poles.new }
{
    for i in (0..n).rev() {
        let row = move |line: &mut [f64]| super::back_row(lower, line, h, n, i);
        each_line(poles, lines, n, row);
    }
}

// Solves L L' x = b in place for lines of n points each, which stand one after the other.
pub fn substitute_together(lower: &[f64], poles: &mut [f64], lines: usize, h: usize, n: usize)
    requires { SolvableLines lines h n lower.now poles.old }
    ensures { EachLine n lines (λ (r : ℕ). substitute_symmetric_band h n lower.now) poles.old poles.new }
{
    forward_together(lower, poles, lines, h, n);
    back_together(lower, poles, lines, h, n);
}
