// Cholesky's factor L of a symmetric band matrix, A = L L', in the place of its lower half-band, and L L' x = b. Rows go by their
// numbers: each reads the ones before it or behind it by theirs, and after `chunks_mut` or `get_mut` nothing is known of what a row that was written holds. A matrix, its
// poles and their sizes are parameters: the one is read while the other is written.
#![tactic(auto)]

pub mod carried;
pub mod together;

ghost use Rattle.std.specs.Prelude.{◌≡◌, ◌+◌, ◌*◌, ◌≤◌, ◌<◌, length, is_some};
ghost use Rattle.places.specs.Loops.{each, down, outcome, each_while};
ghost use Rattle.cholesky.specs.Cholesky.{reduced_entry, factor_entry, factor_left, undetermined, factor_row, largest_diagonal, factor_symmetric_band, forward_row, back_point, back_row, substitute_symmetric_band};
ghost use Rattle.bands.specs.Shapes.{HasRow, HasSystem};

use bands::Band;
use geometry::Point;

// A[i][j] less the products of rows i and j over the columns before j.
#[tactic(auto, using(bands::proofs::Rows::loops), unfolding(crate::specs::Cholesky::reduced_entry))]
fn reduced_entry(lower: &[f64], h: usize, i: usize, j: usize) -> f64
    requires { (i ≤ j + h) × (j ≤ i) × HasRow (h + 1) lower.now i }
    ensures { result ≡ reduced_entry h lower.now i j }
{
    let band = Band::lower(lower, h);
    let mut sum = band.entry(i, j);
    for k in i.saturating_sub(h)..j {
        sum -= band.entry(i, k) * band.entry(j, k);
    }
    sum
}

// L[i][j] left of the diagonal, in place.
#[tactic(auto, unfolding(crate::specs::Cholesky::factor_entry))]
fn factor_entry(lower: &mut [f64], h: usize, i: usize, j: usize)
    requires { (i ≤ j + h) × (j < i) × HasRow (h + 1) lower.old i }
    ensures { lower.new ≡ factor_entry h i j lower.old }
{
    let sum = reduced_entry(lower, h, i, j);
    let pivot = Band::lower(lower, h).entry(j, j);
    bands::put_band_entry(lower, h + 1, h, i, j, sum / pivot);
}

// Row i of L up to its diagonal, in place.
#[tactic(auto, using(bands::proofs::Rows::loops), unfolding(crate::specs::Cholesky::factor_left))]
fn factor_left(lower: &mut [f64], h: usize, i: usize)
    requires { HasRow (h + 1) lower.old i }
    ensures { lower.new ≡ factor_left h i lower.old }
{
    for j in i.saturating_sub(h)..i {
        factor_entry(lower, h, i, j);
    }
}

// Whether a pivot is NaN or at most the floor.
#[tactic(auto, unfolding(crate::specs::Cholesky::undetermined))]
pub fn is_undetermined(floor: f64, sum: f64) -> bool
    ensures { result ≡ undetermined floor sum }
{
    sum.is_nan() || sum <= floor
}

// Row i of L, in place; none where its pivot is undetermined.
#[tactic(auto, unfolding(crate::specs::Cholesky::factor_row, crate::specs::Cholesky::factor_diagonal))]
fn factor_row(lower: &mut [f64], h: usize, i: usize, floor: f64) -> Option<()>
    requires { HasRow (h + 1) lower.old i }
    ensures { outcome (is_some result) lower.new ≡ factor_row h floor i lower.old }
{
    factor_left(lower, h, i);
    let sum = reduced_entry(lower, h, i, i);
    if is_undetermined(floor, sum) {
        return None;
    }
    let root = geometry::root::sqrt(sum);
    bands::put_band_entry(lower, h + 1, h, i, i, root);
    Some(())
}

// The largest of 0 and the n diagonal entries, NaN passed over.
#[tactic(auto, using(crate::proofs::Loops::diagonals), unfolding(crate::specs::Cholesky::largest_diagonal))]
fn largest_diagonal(lower: &[f64], h: usize, n: usize) -> f64
    requires { (h ≤ 25) × (n * (h + 1) ≤ length lower.now) }
    ensures { result ≡ largest_diagonal h n lower.now }
{
    let band = Band::lower(lower, h);
    let mut largest = 0.0;
    for i in 0..n {
        largest = geometry::doubles::max(largest, band.entry(i, i));
    }
    largest
}

// The first n rows of L, in place; none where a pivot is undetermined.
#[tactic(auto, using(crate::proofs::Loops::stops))]
pub fn factor_rows(lower: &mut [f64], h: usize, n: usize, floor: f64) -> Option<()>
    requires { (h ≤ 25) × (n * (h + 1) ≤ length lower.old) }
    ensures { outcome (is_some result) lower.new ≡ each_while 0 n (factor_row h floor) lower.old }
{
    for i in 0..n {
        factor_row(lower, h, i, floor)?;
    }
    Some(())
}

// Cholesky's factor of the n rows of the lower half-band of a symmetric matrix, in place; none where a pivot is NaN or
// falls to `relative` times the largest diagonal or below.
#[tactic(auto, unfolding(crate::specs::Cholesky::factor_symmetric_band))]
pub fn factor_symmetric_band(lower: &mut [f64], h: usize, n: usize, relative: f64) -> Option<()>
    requires { (h ≤ 25) × (n * (h + 1) ≤ length lower.old) }
    ensures { outcome (is_some result) lower.new ≡ factor_symmetric_band h n relative lower.old }
{
    let floor = relative * largest_diagonal(lower, h, n);
    if h == 3 {
        return carried::factor_carried(lower, n, floor);
    }
    factor_rows(lower, h, n, floor)
}

// Row i of L y = b, put in its place.
#[tactic(auto, unfolding(crate::specs::Cholesky::forward_row, crate::specs::Cholesky::forward_point))]
fn forward_row(lower: &[f64], poles: &mut [f64], h: usize, i: usize)
    requires { HasRow (h + 1) lower.now i × (3 * i + 3 ≤ length poles.old) }
    ensures { poles.new ≡ forward_row h lower.now i poles.old }
{
    Band::lower(lower, h).solve_row(poles, i, i.saturating_sub(h), i);
}

// L y = b in place.
#[tactic(auto, using(bands::proofs::Rows::loops))]
fn forward_rows(lower: &[f64], poles: &mut [f64], h: usize, n: usize)
    requires { HasSystem (h + 1) h n lower.now poles.old }
    ensures { poles.new ≡ each 0 n (forward_row h lower.now) poles.old }
{
    for i in 0..n {
        forward_row(lower, poles, h, i);
    }
}

// Row i of L' x = y, from the x after it: the entries of column i of L.
#[tactic(auto, using(bands::proofs::Rows::loops), unfolding(crate::specs::Cholesky::back_point))]
fn back_point(lower: &[f64], poles: &[f64], h: usize, n: usize, i: usize) -> Point
    requires { HasSystem (h + 1) h n lower.now poles.now × (i < n) }
    ensures { result ≡ back_point h n lower.now poles.now i }
{
    let band = Band::lower(lower, h);
    let mut x = geometry::point_at(poles, i);
    for k in i + 1..(i + h + 1).min(n) {
        x = x.less_scaled(band.entry(k, i), geometry::point_at(poles, k));
    }
    x.scaled(1.0 / band.entry(i, i))
}

// The same, put in its place.
#[tactic(auto, unfolding(crate::specs::Cholesky::back_row))]
pub fn back_row(lower: &[f64], poles: &mut [f64], h: usize, n: usize, i: usize)
    requires { HasSystem (h + 1) h n lower.now poles.old × (i < n) }
    ensures { poles.new ≡ back_row h n lower.now i poles.old }
{
    let x = back_point(lower, poles, h, n, i);
    geometry::put_point(poles, i, x);
}

// L' x = y in place.
#[tactic(auto, using(bands::proofs::Rows::loops))]
fn back_rows(lower: &[f64], poles: &mut [f64], h: usize, n: usize)
    requires { HasSystem (h + 1) h n lower.now poles.old }
    ensures { poles.new ≡ down n (back_row h n lower.now) poles.old }
{
    for i in (0..n).rev() {
        back_row(lower, poles, h, n, i);
    }
}

// Solves L L' x = b in place for n points.
#[tactic(auto, unfolding(crate::specs::Cholesky::substitute_symmetric_band))]
pub fn substitute_symmetric_band(lower: &[f64], poles: &mut [f64], h: usize, n: usize)
    requires { HasSystem (h + 1) h n lower.now poles.old }
    ensures { poles.new ≡ substitute_symmetric_band h n lower.now poles.old }
{
    forward_rows(lower, poles, h, n);
    back_rows(lower, poles, h, n);
}
