// A call's answer for C: its number, and the mark and the counts of a fit in two more lent slices. A slice too short for them is too short like any other.
// The two slices go beside those of the output, as in C: a struct with them needs a lifetime for each slice.
#![tactic(auto)]

pub mod grid;
pub mod ladder;

ghost use Rattle.std.specs.Prelude.{◌≡◌, ◌+◌, ◌≤◌, ◌<◌, length, set};
ghost use Rattle.fitting.specs.Marks.{largest_deviation};
ghost use Rattle.telling.specs.Told.{put_fit};

use fitting::Fit;

// A fit's largest deviation in place j of `largest`, and its mark and counts in the four places of `counts` from k on.
pub fn tell_fit(fit: Fit, largest: &mut [f64], j: usize, counts: &mut [usize], k: usize)
    requires { (j < length largest.old) × (k + 4 ≤ length counts.old) }
    ensures largest_after { largest.new ≡ set largest.old j (largest_deviation fit.mark) }
    ensures counts_after { counts.new ≡ put_fit k fit counts.old }
{
    let mark = fit.mark;
    largest[j] = mark.deviation();
    counts[k] = mark.number();
    counts[k + 1] = fit.poles;
    counts[k + 2] = fit.knots;
    counts[k + 3] = fit.unreadable;
}
