// What a fit hands out: its poles and flat knots, and the knots once more as distinct knots with multiplicities.
ghost use Rattle.std.specs.Prelude.{◌≤◌, length};
ghost use Rattle.making.specs.HandedOut.{HasKnotsOut, HandedKnots, HandedOut};

use checks::slices::Output;

// Flat knots, and their runs; how many distinct knots they are. Their three slices go by themselves: a struct of them in a grid's output needs a lifetime for each slice.
#[tactic(auto, using(crate::proofs::HandedLaws::handed_copy))]
pub fn hand_knots(from: &[f64], flat: &mut [f64], knots: &mut [f64], mults: &mut [u32]) -> usize
    requires { HasKnotsOut (length from.now) flat.old knots.old mults.old }
    ensures { HandedKnots from.now flat.old flat.new knots.old knots.new mults.old mults.new result }
{
    places::copy(from, flat);
    knots::runs::compress_knots(from, knots, mults)
}

// Poles and flat knots; how many distinct knots they are.
#[tactic(auto, using(crate::proofs::HandedLaws::handed_copy))]
pub fn hand_out(poles: &[f64], flat: &[f64], out: &mut Output) -> usize
    requires { HasKnotsOut (length flat.now) out.old.flat.now out.old.knots.now out.old.mults.now × (length poles.now ≤ length out.old.poles.now) }
    ensures { HandedOut poles.now flat.now out.old out.new result }
{
    places::copy(poles, out.poles);
    hand_knots(flat, out.flat, out.knots, out.mults)
}
