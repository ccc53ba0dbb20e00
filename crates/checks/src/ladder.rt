// A ladder's checks up to 10, in the documents' order: 7, 8, 1, 2, 3, 4, 9, 17, 10. They touch no lent slice.
#![tactic(auto, unfolding(crate::specs::LadderChecks::shape_verdict, crate::specs::LadderChecks::chosen_verdict, crate::specs::LadderChecks::unchosen_verdict, crate::specs::LadderChecks::count_verdict, crate::specs::LadderChecks::room_verdict, crate::specs::LadderChecks::coordinates_verdict, crate::specs::LadderChecks::ladder_verdict))]

ghost use Rattle.std.specs.Prelude.{◌≡◌, ◌-◌, ◌/◌, ◌≤◌, length, OnOk};
ghost use Rattle.std.specs.List.{list_any};
ghost use Rattle.bspline.specs.Refusals.{outside, pass};
ghost use Rattle.checks.specs.LadderChecks.{shape_verdict, chosen_verdict, unchosen_verdict, count_verdict, room_verdict, coordinates_verdict, ladder_verdict, Shaped, Roomy};

use crate::given::Ladder;
use crate::{Call, Room};
use bspline::{Refusal, check_degree, check_factor};

// 7, 8, 1, 2.
fn check_shape(places: usize, degree: usize) -> Result<(), Refusal>
    ensures verdict { result ≡ shape_verdict places degree }
    ensures shaped { OnOk result (Shaped places degree) }
{
    if places % 3 != 0 {
        return Err(Refusal::NotTriples);
    }
    if 1024 < places / 3 {
        return Err(Refusal::TooLarge);
    }
    if places / 3 < 2 {
        return Err(Refusal::TooFewPoints);
    }
    check_degree(degree)
}

// 3 and 4 where a pole count is chosen: 0 poles count as 1.
pub fn check_chosen(n: usize, degree: usize, count: usize) -> Result<(), Refusal>
    ensures { result ≡ chosen_verdict n degree count }
{
    if count.saturating_sub(1) < degree {
        return Err(Refusal::DegreeTooHigh);
    }
    if n < count {
        return Err(Refusal::TooManyPoles);
    }
    Ok(())
}

// 3 where none is.
pub fn check_unchosen(n: usize, degree: usize) -> Result<(), Refusal>
    ensures { result ≡ unchosen_verdict n degree }
{
    if n.saturating_sub(1) < degree {
        return Err(Refusal::DegreeTooHigh);
    }
    Ok(())
}

// 3 and 4.
pub fn check_count(call: Call, n: usize, degree: usize) -> Result<(), Refusal>
    ensures { result ≡ count_verdict call n degree }
{
    match call {
        Call::Interpolate => check_unchosen(n, degree),
        Call::Approximate(count) => check_chosen(n, degree, count),
        Call::ApproximateWithin(_) => check_unchosen(n, degree),
        Call::SearchSpread(_) => check_unchosen(n, degree),
    }
}

// 9.
fn check_room(n: usize, degree: usize, room: Room) -> Result<(), Refusal>
    requires { (n ≤ 1024) × (degree ≤ 25) }
    ensures verdict { result ≡ room_verdict n degree room }
    ensures roomy { OnOk result (Roomy n degree room) }
{
    let knots = n + degree + 1;
    if room.poles < 3 * n {
        return Err(Refusal::BufferTooShort);
    }
    if room.flat < knots || room.knots < knots || room.mults < knots {
        return Err(Refusal::BufferTooShort);
    }
    if room.work < 4 * degree * n + 16 * n + 64 {
        return Err(Refusal::BufferTooShort);
    }
    if room.index < 4 * n {
        return Err(Refusal::BufferTooShort);
    }
    Ok(())
}

// Not between -1,000,000 and 1,000,000.
fn is_outside(x: f64) -> bool
    ensures { result ≡ outside x }
{
    !(x <= 1000000.0 && -1000000.0 <= x)
}

// Whether some coordinate is.
fn some_outside(points: &[f64]) -> bool
    ensures { result ≡ list_any outside points.now }
{
    points.iter().any(|x| is_outside(*x))
}

// 10.
pub fn check_coordinates(points: &[f64]) -> Result<(), Refusal>
    ensures { result ≡ coordinates_verdict points.now }
{
    if some_outside(points) {
        return Err(Refusal::CoordinateOutOfRange);
    }
    Ok(())
}

// All of them.
pub fn check_ladder(ladder: Ladder, call: Call, room: Room) -> Result<(), Refusal>
    ensures verdict { result ≡ ladder_verdict call ladder.entry.points.now ladder.entry.degree ladder.entry.metric.factor room }
    ensures shaped { OnOk result (Shaped (length ladder.entry.points.now) ladder.entry.degree) }
    ensures counted { OnOk result (count_verdict call (length ladder.entry.points.now / 3) ladder.entry.degree ≡ pass) }
    ensures roomy { OnOk result (Roomy (length ladder.entry.points.now / 3) ladder.entry.degree room) }
{
    let places = ladder.points.len();
    let degree = ladder.degree;
    check_shape(places, degree)?;
    check_count(call, places / 3, degree)?;
    check_room(places / 3, degree, room)?;
    check_factor(ladder.metric.factor)?;
    check_coordinates(ladder.points)
}
