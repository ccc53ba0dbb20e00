// One round of the refinement of knots (`fit_with_refined_knots`): the spans that miss the tolerance split between their middle parameters.
#![tactic(auto)]

ghost use Rattle.std.specs.Prelude.{◌≡◌, ◌+◌, ◌<◌, ◌≤◌, length, take};
ghost use Rattle.geometry.specs.Root.{roots_of};
ghost use Rattle.refinement.specs.Refinement.{span_ends, span_worsts, refined_knots};
ghost use Rattle.refinement.specs.Round.{round_knots, round_of, headed, flat_after, fresh_after};

mod merge;
mod spans;
mod splits;

use spans::Spans;
use splits::Splitting;

// One round, by the squares of the parameters' deviations, on the l flat knots at the front of `flat`: how many there are then. The ends of the spans take the places of
// the first poles, the spans' worst deviations those of the squares, and the new knots the first of `fresh`.
// The lists are parameters of their own: what is read and what is written stand beside each other.
pub fn refine(
    params: &[f64],
    squares: &mut [f64],
    firsts: &mut [usize],
    flat: &mut [f64],
    l: usize,
    fresh: &mut [f64],
    degree: usize,
    tolerance: f64,
    most: f64,
) -> Option<usize>
    requires squared { length squares.old ≡ length params.now }
    requires placed { length firsts.old ≡ length params.now }
    requires least { degree < l }
    requires flat_there { l ≤ length flat.old }
    requires flat_room { length params.now + degree + 1 ≤ length flat.old }
    requires fresh_room { length params.now ≤ length fresh.old }
    ensures value { result ≡ round_of (refined_knots params.now firsts.old (roots_of squares.old) most tolerance degree (take l flat.old)) }
    ensures flat_after { flat.new ≡ flat_after (refined_knots params.now firsts.old (roots_of squares.old) most tolerance degree (take l flat.old)) flat.old }
    ensures fresh_after { fresh.new ≡ fresh_after (refined_knots params.now firsts.old (roots_of squares.old) most tolerance degree (take l flat.old)) (round_knots params.now squares.old firsts.old most tolerance) fresh.old }
    ensures squares_after { squares.new ≡ headed (span_worsts (roots_of squares.old) (span_ends firsts.old)) squares.old }
    ensures firsts_after { firsts.new ≡ headed (span_ends firsts.old) firsts.old }
{
    let count = spans::span_ends(firsts);
    let spans = Spans {
        params,
        ends: &firsts[..count],
    };
    spans.find_worsts(squares);
    let worsts = &squares[..count];
    let threshold = splits::threshold_of(spans, worsts, tolerance, most);
    let splitting = Splitting {
        spans,
        worsts,
        tolerance,
        threshold,
    };
    let inserted = splitting.count();
    if inserted == 0 || params.len() <= l - degree - 1 + inserted {
        return None;
    }
    let fresh = &mut fresh[..inserted];
    splitting.lay_knots(fresh);
    merge::take_in(flat, l, fresh);
    Some(l + inserted)
}
