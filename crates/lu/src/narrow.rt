// LU of half-width 2, that of interpolation by cubics, and L U x = b with it. What the next turn needs of what this one has made is carried along, so that nothing
// waits for a place that was written just before. The way for every width takes 0.72 to 0.74 of the Rust's time at this width, and this one 0.50 to 0.53; with the
// way for every width `interpolate` of degree 3 takes 0.83 to 1.05 of the Rust's call, and with this one 0.75 to 0.97. Pivots and points go by their numbers, as rows do in the crate's head.
ghost use Rattle.std.specs.Prelude.{◌≡◌, ◌+◌, ◌-◌, ◌*◌, ◌≤◌, ◌<◌, length};
ghost use Rattle.places.specs.Loops.{each, down};
ghost use Rattle.geometry.specs.Doubles.{at};
ghost use Rattle.geometry.specs.Points.{point_at};
ghost use Rattle.lu.specs.BandLu.{eliminate, factor_band, less_point, forward_step, back_band_row};
ghost use Rattle.lu.specs.Narrow.{less_pair, Carried, Known};
ghost use Rattle.bands.specs.Shapes.{HasRow, HasSystem};
ghost use Rattle.bands.specs.SolvedRow.{solved_row};

use bands::Band;
use geometry::Point;

// Two neighbouring places of a row.
#[derive(Clone, Copy)]
pub struct Pair {
    pub x: f64,
    pub y: f64,
}

// Of a pivot's row the diagonal and the two places after it; of the row below it the three from the pivot's column on.
#[derive(Clone, Copy)]
pub struct Ahead {
    pub diagonal: f64,
    pub near: f64,
    pub far: f64,
    pub below: f64,
    pub middle: f64,
    pub last: f64,
}

// The multiplier put at place `from` of the band, and where it is not 0 that multiple of the pivot's row taken off x and y, which stand after it. Returns what stands there then.
#[tactic(auto, unfolding(crate::specs::Narrow::less_pair))]
fn less_pair(
    band: &mut [f64],
    from: usize,
    multiplier: f64,
    x: f64,
    y: f64,
    near: f64,
    far: f64,
) -> Pair
    requires { (from + 2 < length band.old) × (x ≡ at band.old (from + 1)) × (y ≡ at band.old (from + 2)) }
    ensures { (band.new ≡ less_pair from multiplier near far band.old)
        × (result.x ≡ at band.new (from + 1)) × (result.y ≡ at band.new (from + 2)) }
{
    band[from] = multiplier;
    if multiplier == 0.0 {
        return Pair { x, y };
    }
    let u = x - multiplier * near;
    let v = y - multiplier * far;
    band[from + 1] = u;
    band[from + 2] = v;
    Pair { x: u, y: v }
}

// Pivot k, above two rows that reach its column, and what the next pivot needs. Its row stays behind; the rest of the band is lent on as a part to be written.
fn eliminate_ahead(band: &mut [f64], n: usize, k: usize, row: Ahead) -> Ahead
    requires { (k + 2 < n) × (n * 5 ≤ length band.old) × Carried k row band.old }
    ensures { (band.new ≡ eliminate 2 n k band.old) × Carried (k + 1) result band.new }
{
    let below = 5 * k + 5;
    let rest = &mut band[below..];
    let inverse = 1.0 / row.diagonal;
    let factor = row.below * inverse;
    let first = less_pair(rest, 1, factor, row.middle, row.last, row.near, row.far);
    let factor = rest[5] * inverse;
    let x = rest[6];
    let y = rest[7];
    let second = less_pair(rest, 5, factor, x, y, row.near, row.far);
    Ahead {
        diagonal: first.x,
        near: first.y,
        far: rest[4],
        below: second.x,
        middle: second.y,
        last: rest[8],
    }
}

// What pivot 0 needs.
fn first_ahead(band: &[f64]) -> Ahead
    requires { 10 ≤ length band.now }
    ensures { Carried 0 result band.now }
{
    Ahead {
        diagonal: band[2],
        near: band[3],
        far: band[4],
        below: band[6],
        middle: band[7],
        last: band[8],
    }
}

// All pivots of n rows; the last two, which reach fewer rows, by the way for every width.
#[tactic(auto, using(bands::proofs::Rows::loops), unfolding(crate::specs::BandLu::factor_band))]
pub fn factor_narrow(band: &mut [f64], n: usize)
    requires { n * 5 ≤ length band.old }
    ensures { band.new ≡ factor_band 2 n band.old }
{
    if n < 2 {
        super::eliminate_from(band, 2, n, 0);
        return;
    }
    let mut row = first_ahead(band);
    let most = n - 2;
    for k in 0..most {
        row = eliminate_ahead(band, n, k, row);
    }
    super::eliminate_from(band, 2, n, most);
}

// Two neighbouring points.
#[derive(Clone, Copy)]
pub struct Points {
    pub first: Point,
    pub second: Point,
}

// Points k and k + 1.
fn points_at(poles: &[f64], k: usize) -> Points
    requires { 3 * k + 6 ≤ length poles.now }
    ensures { Known k result poles.now }
{
    Points {
        first: geometry::point_at(poles, k),
        second: geometry::point_at(poles, k + 1),
    }
}

// Takes factor times q off point i, which is `old`, where the factor is not 0. Returns what stands there then.
#[tactic(auto, using(crate::proofs::NarrowLaws::pairs), unfolding(crate::specs::BandLu::less_point))]
fn less_known(poles: &mut [f64], i: usize, factor: f64, q: Point, old: Point) -> Point
    requires { (3 * i + 3 ≤ length poles.old) × (old ≡ point_at poles.old i) }
    ensures { (poles.new ≡ less_point i factor q poles.old) × (result ≡ point_at poles.new i) }
{
    if factor == 0.0 {
        return old;
    }
    let r = old.less_scaled(factor, q);
    geometry::put_point(poles, i, r);
    r
}

// Multiples of point k off the two after it, with points k and k + 1 known. Returns points k + 1 and k + 2.
#[tactic(auto, using(crate::proofs::NarrowLaws::pairs))]
fn less_two(poles: &mut [f64], k: usize, near: f64, far: f64, known: Points) -> Points
    requires { (3 * k + 9 ≤ length poles.old) × Known k known poles.old }
    ensures { (poles.new ≡ less_point (k + 2) far known.first (less_point (k + 1) near known.first poles.old)) × Known (k + 1) result poles.new }
{
    let first = less_known(poles, k + 1, near, known.first, known.second);
    let old = geometry::point_at(poles, k + 2);
    let second = less_known(poles, k + 2, far, known.first, old);
    Points { first, second }
}

// Pivot k of L y = b, above two rows that reach its column.
#[tactic(auto, using(crate::proofs::NarrowLaws::pairs))]
fn forward_ahead(band: &[f64], poles: &mut [f64], n: usize, k: usize, known: Points) -> Points
    requires { HasSystem 5 2 n band.now poles.old × (k + 2 < n) × Known k known poles.old }
    ensures { (poles.new ≡ forward_step 2 n band.now k poles.old) × Known (k + 1) result poles.new }
{
    let factors = Band::both(band, 2);
    let near = factors.entry(k + 1, k);
    let far = factors.entry(k + 2, k);
    less_two(poles, k, near, far, known)
}

// L y = b in place; the last two pivots by the way for every width.
#[tactic(auto, using(bands::proofs::Rows::loops))]
pub fn forward_narrow(band: &[f64], poles: &mut [f64], n: usize)
    requires { HasSystem 5 2 n band.now poles.old }
    ensures { poles.new ≡ each 0 n (forward_step 2 n band.now) poles.old }
{
    if n < 2 {
        super::forward_steps(band, poles, 2, n);
        return;
    }
    let mut known = points_at(poles, 0);
    let most = n - 2;
    for k in 0..most {
        known = forward_ahead(band, poles, n, k, known);
    }
    super::forward_step(band, poles, 2, n, most);
    super::forward_step(band, poles, 2, n, most + 1);
}

// Row i of U x = y, with points i + 1 and i + 2 known.
#[tactic(auto, using(crate::proofs::NarrowLaws::pairs))]
fn back_known(band: &[f64], poles: &[f64], i: usize, known: Points) -> Point
    requires { HasRow 5 band.now i × (3 * i + 9 ≤ length poles.now) × Known (i + 1) known poles.now }
    ensures { result ≡ solved_row 5 2 band.now poles.now i (i + 1) (i + 3) }
{
    let factors = Band::both(band, 2);
    let x = geometry::point_at(poles, i).less_scaled(factors.entry(i, i + 1), known.first);
    let y = x.less_scaled(factors.entry(i, i + 2), known.second);
    y.scaled(1.0 / factors.entry(i, i))
}

// The same, put in its place. Returns points i and i + 1.
#[tactic(auto, using(crate::proofs::NarrowLaws::pairs))]
fn back_ahead(band: &[f64], poles: &mut [f64], n: usize, i: usize, known: Points) -> Points
    requires { HasSystem 5 2 n band.now poles.old × (i + 2 < n) × Known (i + 1) known poles.old }
    ensures { (poles.new ≡ back_band_row 2 n band.now i poles.old) × Known i result poles.new }
{
    let x = back_known(band, poles, i, known);
    geometry::put_point(poles, i, x);
    Points {
        first: x,
        second: known.first,
    }
}

// The rows of U x = y before the last two.
#[tactic(auto, using(bands::proofs::Rows::loops))]
fn back_rest(band: &[f64], poles: &mut [f64], n: usize)
    requires { HasSystem 5 2 n band.now poles.old × (2 ≤ n) }
    ensures { poles.new ≡ down (n - 2) (back_band_row 2 n band.now) poles.old }
{
    let most = n - 2;
    let mut known = points_at(poles, most);
    for i in (0..most).rev() {
        known = back_ahead(band, poles, n, i, known);
    }
}

// U x = y in place; the last two rows by the way for every width.
#[tactic(auto, using(bands::proofs::Rows::loops))]
pub fn back_narrow(band: &[f64], poles: &mut [f64], n: usize)
    requires { HasSystem 5 2 n band.now poles.old }
    ensures { poles.new ≡ down n (back_band_row 2 n band.now) poles.old }
{
    if n < 2 {
        super::back_band_rows(band, poles, 2, n);
        return;
    }
    super::back_band_row(band, poles, 2, n, n - 1);
    super::back_band_row(band, poles, 2, n, n - 2);
    back_rest(band, poles, n);
}
