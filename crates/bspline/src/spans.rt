// Which knot span holds a parameter: the fit's way up from span to span (`BasisRows::at`), and the reader's by halving (`KnotVector::span`).
ghost use Rattle.std.specs.Prelude.{◌≡◌, true, ℕ, ◌+◌, ◌-◌, ◌*◌, ◌<◌, ◌≤◌, length};
ghost use Rattle.bspline.specs.Spans.{span_on, last_with, begins, wide, NeverFalls, span_of};

// The span that holds t, from `span` on: t is at or after the parameter that `span` was found for.
pub fn advance(flat: &[f64], degree: usize, span: usize, t: f64) -> usize
    requires { (degree ≤ span) × (span + degree + 2 ≤ length flat.now) }
    ensures { result ≡ span_on flat.now degree span t }
{
    let ends = &flat[span + 1..flat.len() - degree - 1];
    span + ends.iter().take_while(|end| **end <= t).count()
}

// The last of the `count` spans from lo on that begins at or below u, found by halving: those that begin at or below u stand first.
fn halve(flat: &[f64], lo: usize, count: usize, u: f64) -> usize
    requires within { (1 ≤ count) × (lo + count < length flat.now) }
    requires begin_first { (s k : ℕ) → s ≤ k → k < lo + count → begins flat.now u k ≡ true → begins flat.now u s ≡ true }
    ensures { result ≡ last_with (begins flat.now u) lo (count - 1) }
{
    lo + flat[lo + 1..lo + count].partition_point(|knot| *knot <= u)
}

// The last of the spans lo to `from` that has a width, and lo where none has. Downwards by place, as the Rust goes.
fn step_back(flat: &[f64], lo: usize, from: usize) -> usize
    requires { (lo ≤ from) × (from + 1 < length flat.now) }
    ensures { result ≡ last_with (wide flat.now) lo (from - lo) }
{
    let mut span = from;
    while span > lo && flat[span] >= flat[span + 1] {
        span -= 1;
    }
    span
}

// The span of a curve of the degree that holds u, which lies in its range.
pub fn span_of(flat: &[f64], degree: usize, u: f64) -> usize
    requires long { 2 * degree + 2 ≤ length flat.now }
    requires never_falls { NeverFalls flat.now }
    ensures { result ≡ span_of flat.now degree u }
{
    let end = flat.len() - 1 - degree;
    let last = halve(flat, degree, end - degree, u);
    step_back(flat, degree, last)
}
