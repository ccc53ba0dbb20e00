// The calls of the list. A call's words: entry, degree, spacing, pole count, tolerance, how many places, how many of them are given,
// by how much the work is too short, and the given places. The places that are not given repeat the last that is.
ghost use Rattle.std.specs.Prelude.{◌≡◌, ◌≤◌, length};
ghost use Rattle.places.specs.Places.{laid};
ghost use Rattle.replay_list.specs.Listed.{call_of, FoundAt, place_at};

use crate::{Case, PLACES};
use checks::Call;
use knots::Spacing;

// The call of an entry's number, as the list has it.
fn call_of(entry: u64, count: u64, tolerance: u64) -> Option<Call>
    ensures { result ≡ call_of entry count tolerance }
{
    match entry {
        0 => Some(Call::Interpolate),
        1 => Some(Call::Approximate(count as usize)),
        2 => Some(Call::ApproximateWithin(card_text::from_word(tolerance))),
        3 => Some(Call::SearchSpread(card_text::from_word(tolerance))),
        _ => None,
    }
}

// The case whose words start at a place.
pub fn case_at(words: &[u64], start: usize) -> Option<Case<'_>>
    ensures { FoundAt words.now start result }
{
    let [
        entry,
        degree,
        spacing,
        chosen,
        tolerance,
        count,
        given,
        shorter,
        rest @ ..,
    ] = words.get(start..)?
    else {
        return None;
    };
    let call = call_of(*entry, *chosen, *tolerance)?;
    let count = *count as usize;
    let given = rest.get(..*given as usize)?;
    let shorter = *shorter as usize;
    if count > PLACES || given.len() > count || given.is_empty() && count > 0 || shorter > 1 {
        return None;
    }
    Some(Case {
        call,
        degree: *degree as usize,
        spacing: Spacing::from(*spacing as usize),
        count,
        given,
        shorter,
        answer: start + 8 + given.len(),
    })
}

// Lays a case's places from the first place on.
#[tactic(auto, using(crate::proofs::Loops::laying))]
pub fn lay_places(case: Case, points: &mut [f64])
    requires { PLACES ≤ length points.old }
    ensures { points.new ≡ laid 0 case.entry.count (place_at case.entry.given.now) points.old }
{
    // by number: from the last word on that word stands for each place
    for (k, x) in points[..case.count].iter_mut().enumerate() {
        *x = card_text::from_word(case.given[k.min(case.given.len() - 1)]);
    }
}
