// LU without pivoting of a band matrix, in place, and L U x = b. Rows go by their numbers: each reads the ones before it or behind it by
// theirs, and after `chunks_mut` or `get_mut` nothing is known of what a row that was written holds. A matrix, its
// poles and their sizes are parameters: the one is read while the other is written.
#![tactic(auto)]

pub mod narrow;

ghost use Rattle.std.specs.Prelude.{◌≡◌, ◌+◌, ◌*◌, ◌≤◌, ◌<◌, length};
ghost use Rattle.places.specs.Loops.{each, down};
ghost use Rattle.lu.specs.BandLu.{eliminate, factor_band, less_point, forward_step, back_band_row, substitute_band};
ghost use Rattle.lu.specs.BelowPivot.{less_places, clear_row, clear_below};
ghost use Rattle.bands.specs.Shapes.{HasRow, HasSystem};

use bands::Band;
use geometry::Point;

// Puts the multiplier at place `at` of the rows, and where it is not 0 takes that multiple of what stands after the pivot off as many places after it.
#[tactic(auto, using(bands::proofs::Rows::loops), unfolding(crate::specs::BelowPivot::less_places, crate::specs::BelowPivot::less_place))]
fn less_places(rest: &mut [f64], at: usize, pivot: &[f64], multiplier: f64)
    requires { at + length pivot.now < length rest.old }
    ensures { rest.new ≡ less_places at (length pivot.now) pivot.now multiplier rest.old }
{
    rest[at] = multiplier;
    if multiplier == 0.0 {
        return;
    }
    // by number: after `iter_mut().zip(..)` what the list holds is not known, and with it elimination takes 1.2 to 1.8 times as long
    for (m, x) in pivot.iter().enumerate() {
        rest[at + 1 + m] -= multiplier * *x;
    }
}

// Row d below the pivot, whose reciprocal is `inverse`.
#[tactic(auto, unfolding(crate::specs::BelowPivot::clear_row))]
fn clear_row(rest: &mut [f64], h: usize, pivot: &[f64], inverse: f64, d: usize)
    requires { (length pivot.now ≤ h) × (d < length pivot.now) × HasRow (2 * h + 1) rest.old d }
    ensures { rest.new ≡ clear_row (2 * h + 1) h (length pivot.now) pivot.now inverse d rest.old }
{
    let at = d * (2 * h + 1) + (h - d - 1);
    let factor = rest[at] * inverse;
    less_places(rest, at, pivot, factor);
}

// The rows below the pivot that reach its column, as many as there are places after it: `rest` begins with the row after the pivot's.
#[tactic(auto, using(bands::proofs::Rows::loops), unfolding(crate::specs::BelowPivot::clear_below))]
fn clear_below(rest: &mut [f64], h: usize, pivot: &[f64], inverse: f64)
    requires { (length pivot.now ≤ h) × (length pivot.now * (2 * h + 1) ≤ length rest.old) }
    ensures { rest.new ≡ clear_below (2 * h + 1) h (length pivot.now) pivot.now inverse rest.old }
{
    for d in 0..pivot.len() {
        clear_row(rest, h, pivot, inverse, d);
    }
}

// Copies a row. By number: after `iter_mut().zip(..)` what the list holds is not known; with `copy_from_slice` LU at half-width 3 takes 0.84 to 0.85 of the Rust's time in
// place of 0.71 to 0.74, above the goal of 0.8.
fn copy_row(from: &[f64], to: &mut [f64])
    requires { length to.old ≡ length from.now }
    ensures { to.new ≡ from.now }
{
    for (m, x) in from.iter().enumerate() {
        to[m] = *x;
    }
}

// Pivot k: multiples of what stands after it in its row off the rows below it. It is copied into `room` before, which is faster than to read it beside what is written.
fn eliminate_pivot(band: &mut [f64], h: usize, n: usize, k: usize, room: &mut [f64])
    requires { (h ≤ length room.old) × (k < n) × (n * (2 * h + 1) ≤ length band.old) }
    ensures { band.new ≡ eliminate h n k band.old }
{
    let w = 2 * h + 1;
    let (done, rest) = band.split_at_mut(k * w + w);
    let start = k * w + h + 1;
    let count = (k + h + 1).min(n) - k - 1;
    let pivot = &mut room[..count];
    copy_row(&done[start..start + count], pivot);
    let inverse = 1.0 / Band::both(done, h).entry(k, k);
    clear_below(rest, h, pivot, inverse);
}

// The pivots from `start` on.
#[tactic(auto, using(bands::proofs::Rows::loops))]
pub fn eliminate_from(band: &mut [f64], h: usize, n: usize, start: usize)
    requires { (h ≤ 25) × (n * (2 * h + 1) ≤ length band.old) }
    ensures { band.new ≡ each start n (eliminate h n) band.old }
{
    let mut room = [0.0f64; 25];
    for k in start..n {
        eliminate_pivot(band, h, n, k, &mut room);
    }
}

// LU without pivoting, in place, of n rows of half-width h.
#[tactic(auto, unfolding(crate::specs::BandLu::factor_band))]
pub fn factor_band(band: &mut [f64], h: usize, n: usize)
    requires { (h ≤ 25) × (n * (2 * h + 1) ≤ length band.old) }
    ensures { band.new ≡ factor_band h n band.old }
{
    if h == 2 {
        narrow::factor_narrow(band, n);
        return;
    }
    eliminate_from(band, h, n, 0);
}

// Takes factor times q off point i, where the factor is not 0.
#[tactic(auto, unfolding(crate::specs::BandLu::less_point))]
fn less_point(poles: &mut [f64], i: usize, factor: f64, q: Point)
    requires { 3 * i + 3 ≤ length poles.old }
    ensures { poles.new ≡ less_point i factor q poles.old }
{
    if factor == 0.0 {
        return;
    }
    let r = geometry::point_at(poles, i).less_scaled(factor, q);
    geometry::put_point(poles, i, r);
}

// Pivot k of L y = b: multiples of point k off the points after it.
#[tactic(auto, using(bands::proofs::Rows::loops), unfolding(crate::specs::BandLu::forward_step))]
pub fn forward_step(band: &[f64], poles: &mut [f64], h: usize, n: usize, k: usize)
    requires { HasSystem (2 * h + 1) h n band.now poles.old × (k < n) }
    ensures { poles.new ≡ forward_step h n band.now k poles.old }
{
    let factors = Band::both(band, h);
    let q = geometry::point_at(poles, k);
    for i in k + 1..(k + h + 1).min(n) {
        less_point(poles, i, factors.entry(i, k), q);
    }
}

// L y = b in place.
#[tactic(auto, using(bands::proofs::Rows::loops))]
pub fn forward_steps(band: &[f64], poles: &mut [f64], h: usize, n: usize)
    requires { HasSystem (2 * h + 1) h n band.now poles.old }
    ensures { poles.new ≡ each 0 n (forward_step h n band.now) poles.old }
{
    for k in 0..n {
        forward_step(band, poles, h, n, k);
    }
}

// Row i of U x = y, put in its place.
#[tactic(auto, using(bands::proofs::Rows::loops), unfolding(crate::specs::BandLu::back_band_row, crate::specs::BandLu::back_band_point))]
fn back_band_row(band: &[f64], poles: &mut [f64], h: usize, n: usize, i: usize)
    requires { HasSystem (2 * h + 1) h n band.now poles.old × (i < n) }
    ensures { poles.new ≡ back_band_row h n band.now i poles.old }
{
    Band::both(band, h).solve_row(poles, i, i + 1, (i + h + 1).min(n));
}

// U x = y in place.
#[tactic(auto, using(bands::proofs::Rows::loops))]
pub fn back_band_rows(band: &[f64], poles: &mut [f64], h: usize, n: usize)
    requires { HasSystem (2 * h + 1) h n band.now poles.old }
    ensures { poles.new ≡ down n (back_band_row h n band.now) poles.old }
{
    for i in (0..n).rev() {
        back_band_row(band, poles, h, n, i);
    }
}

// Solves L U x = b in place for n points.
#[tactic(auto, unfolding(crate::specs::BandLu::substitute_band))]
pub fn substitute_band(band: &[f64], poles: &mut [f64], h: usize, n: usize)
    requires { HasSystem (2 * h + 1) h n band.now poles.old }
    ensures { poles.new ≡ substitute_band h n band.now poles.old }
{
    if h == 2 {
        narrow::forward_narrow(band, poles, n);
        narrow::back_narrow(band, poles, n);
        return;
    }
    forward_steps(band, poles, h, n);
    back_band_rows(band, poles, h, n);
}
