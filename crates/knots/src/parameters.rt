// The parameters of a ladder's points (`point_parameters`) and of a grid's lines of points (`shared_parameters`): one code for ladders, rows and columns.
ghost use Rattle.std.specs.Prelude.{◌≡◌, not, ◌∷◌, ℕ, ◌+◌, ◌-◌, ◌^◌, ◌≤◌, ◌<◌, length};
ghost use Rattle.std.specs.Float.Ieee.{le};
ghost use Rattle.places.specs.Places.{list_of, some_below};
ghost use Rattle.geometry.specs.Doubles.{◌⊕◌, ◌⊗◌, nought, at};
ghost use Rattle.knots.specs.Parameters.{step_of, chords, step_sums, from_zero_to_one, point_parameters, shared_parameters, add_line, added_lines};
ghost use Rattle.knots.specs.OnLines.{on_line, on_lines};
ghost use Rattle.knots.specs.Calls.{line_chords, line_sums, Found};

use crate::lines::{Line, Lines};
use crate::{Metric, Spacing};
use bspline::Refusal;
use geometry::CONFUSION;

// What a line's chords come to: their length, and whether two neighbours are confused. (A grid's lines are measured though they are confused.)
#[derive(Clone, Copy)]
pub struct LineChords {
    pub length: f64,
    pub confused: bool,
}

// What a line is summed up to: its chords, and the last running sum of their steps.
#[derive(Clone, Copy)]
pub struct LineSums {
    pub chords: LineChords,
    pub total: f64,
}

// What a chord adds to the parameter.
#[tactic(auto, unfolding(crate::specs::Parameters::step_of))]
fn step(d: f64, spacing: Spacing) -> f64
    ensures { result ≡ step_of spacing d }
{
    match spacing {
        Spacing::Chordal => d,
        Spacing::Centripetal => geometry::root::sqrt(d),
    }
}

// A line's chords, in `out`.
fn line_chords(line: Line, factor: f64, out: &mut [f64]) -> LineChords
    requires { length out.old + 1 ≡ line.count }
    ensures come_to { result ≡ line_chords factor line.entry.count (on_line line.entry) }
    ensures stand { out.new ≡ chords factor line.entry.count (on_line line.entry) }
{
    let mut length = 0.0;
    let mut confused = false;
    // a chord is asked for by its number
    for (k, d) in out.iter_mut().enumerate() {
        *d = line.chord(k, factor);
        length += *d;
        confused |= *d <= CONFUSION;
    }
    LineChords { length, confused }
}

// The running sums of the steps over the chords in `out`, in their places, but for the first sum, which is 0; the last of them.
fn sum_steps(out: &mut [f64], spacing: Spacing) -> f64
    ensures last { result ≡ at (step_sums spacing (length out.old + 1) out.old) (length out.old) }
    ensures stand { nought ∷ out.new ≡ step_sums spacing (length out.old + 1) out.old }
{
    let mut total = 0.0;
    for x in out.iter_mut() {
        total += step(*x, spacing);
        *x = total;
    }
    total
}

// The running sums of a line's steps, in `out`. The chords come first, each on its own, so that no root waits for another.
// Inlined, since the lines of a grid need no test of confused neighbours.
#[inline]
fn line_sums(line: Line, metric: Metric, out: &mut [f64]) -> LineSums
    requires { length out.old ≡ line.count }
    ensures come_to { result ≡ line_sums metric line.entry.count (on_line line.entry) }
    ensures stand { out.new ≡ step_sums metric.spacing line.entry.count (chords metric.factor line.entry.count (on_line line.entry)) }
{
    out[0] = 0.0;
    let steps = &mut out[1..];
    let chords = line_chords(line, metric.factor, steps);
    let total = sum_steps(steps, metric.spacing);
    LineSums { chords, total }
}

// Multiplies by `inverse`, but for the first place, which becomes 0, and the last, which becomes 1.
#[tactic(auto, using(crate::proofs::ParameterLaws::ends_stored))]
fn rescale(out: &mut [f64], inverse: f64)
    requires { 1 ≤ length out.old }
    ensures { out.new ≡ from_zero_to_one (length out.old) (λ (k : ℕ). at out.old k ⊗ inverse) }
{
    for x in out.iter_mut() {
        *x *= inverse;
    }
    let last = out.len() - 1;
    out[last] = 1.0;
    out[0] = 0.0;
}

// The parameters of a line's points, in the first places of `out`; refused where two neighbours are confused.
pub fn point_parameters(line: Line, metric: Metric, out: &mut [f64]) -> Result<(), Refusal>
    requires { line.count ≤ length out.old }
    ensures { Found (point_parameters metric line.entry.count (on_line line.entry)) line.entry.count line.entry.count out.old out.new result }
{
    let params = &mut out[..line.count];
    let sums = line_sums(line, metric, params);
    if sums.chords.confused {
        return Err(Refusal::ConfusedPoints);
    }
    rescale(params, 1.0 / sums.total);
    Ok(())
}

// Adds a line's sums, times `inverse`, to `sums`.
#[tactic(auto, using(crate::proofs::ParameterLaws::list_by))]
fn add_scaled(sums: &mut [f64], line: &[f64], inverse: f64)
    requires { length line.now ≡ length sums.old }
    ensures { sums.new ≡ list_of (length sums.old) (λ (k : ℕ). at sums.old k ⊕ at line.now k ⊗ inverse) }
{
    // by number: after `iter_mut().zip(..)` what the list holds is not known
    for (k, sum) in sums.iter_mut().enumerate() {
        *sum += line[k] * inverse;
    }
}

// Adds a line's parameters to `sums`, unless it has no length, with `own` to work in; how many lines were added so far.
fn add_line(line: Line, metric: Metric, used: usize, sums: &mut [f64], own: &mut [f64]) -> usize
    requires few { used < 2 ^ 53 }
    requires for_sums { length sums.old ≡ line.count }
    requires for_own { length own.old ≡ line.count }
    ensures { record { used = result; sums = sums.new } ≡ add_line metric line.entry.count (on_line line.entry) (record { used = used; sums = sums.old }) }
{
    let found = line_sums(line, metric, own);
    if found.chords.length <= CONFUSION {
        return used;
    }
    sums[0] = 0.0;
    add_scaled(&mut sums[1..], &own[1..], 1.0 / found.total);
    used + 1
}

// Adds up the parameters of the lines that have a length, in `sums`; how many lines those are.
fn add_lines(lines: Lines, metric: Metric, sums: &mut [f64], own: &mut [f64]) -> usize
    requires for_sums { length sums.old ≡ lines.count }
    requires for_own { length own.old ≡ lines.count }
    ensures few { result ≤ lines.entry.lines }
    ensures added { record { used = result; sums = sums.new } ≡ added_lines metric lines.entry.lines lines.entry.count (on_lines lines.entry) }
{
    sums.fill(0.0);
    let mut used = 0;
    // a line is asked for by its number
    for r in 0..lines.lines {
        used = add_line(lines.line(r), metric, used, sums, own);
    }
    used
}

// The parameters that lines share, in the first places of `out`, with as many places behind them to work in; refused where no line has a length, or where the
// parameters do not rise.
pub fn shared_parameters(lines: Lines, metric: Metric, out: &mut [f64]) -> Result<(), Refusal>
    requires { lines.count + lines.count ≤ length out.old }
    ensures { Found (shared_parameters metric lines.entry.lines lines.entry.count (on_lines lines.entry)) lines.entry.count (lines.entry.count + lines.entry.count) out.old out.new result }
{
    let n = lines.count;
    let (params, rest) = out.split_at_mut(n);
    let used = add_lines(lines, metric, params, &mut rest[..n]);
    if used == 0 {
        return Err(Refusal::ConfusedPoints);
    }
    rescale(params, 1.0 / used as f64);
    if params.windows(2).any(|w| w[1] <= w[0]) {
        return Err(Refusal::ConfusedPoints);
    }
    Ok(())
}
