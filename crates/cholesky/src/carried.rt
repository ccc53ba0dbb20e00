// Cholesky's factor of half-width 3, that of least squares by cubics. What a row needs of the three rows above it is carried along, so that nothing waits for a
// place that was written just before. One function for every width takes 1.51 to 1.57 of the Rust's time at this width, and this one 1.07 to 1.14. Rows go by
// their numbers, as in the crate's head.
ghost use Rattle.std.specs.Prelude.{◌≡◌, ◌+◌, ◌*◌, ◌≤◌, length, is_some};
ghost use Rattle.places.specs.Loops.{outcome, each_while};
ghost use Rattle.geometry.specs.Root.{sqrt_of};
ghost use Rattle.bands.specs.Bands.{put_entry};
ghost use Rattle.cholesky.specs.Cholesky.{factor_left, factor_row};
ghost use Rattle.cholesky.specs.Carried.{Above, Left};
ghost use Rattle.bands.specs.Shapes.{HasRow};

// The last places of three rows of L, each up to its diagonal: a, then b and c, then d, e and f.
#[derive(Clone, Copy)]
pub struct Triangle {
    pub a: f64,
    pub b: f64,
    pub c: f64,
    pub d: f64,
    pub e: f64,
    pub f: f64,
}

// A row of L left of its diagonal, and the diagonal before its root.
#[derive(Clone, Copy)]
pub struct Row {
    pub far: f64,
    pub middle: f64,
    pub near: f64,
    pub rest: f64,
}

// Row i of L up to its diagonal, in place.
fn left_ahead(lower: &mut [f64], i: usize, above: Triangle) -> Row
    requires { (3 ≤ i) × HasRow 4 lower.old i × Above i above lower.old }
    ensures { (lower.new ≡ factor_left 3 i lower.old) × Left i result lower.new × Above i above lower.new }
{
    let start = 4 * i;
    let far = lower[start] / above.a;
    let middle = (lower[start + 1] - far * above.b) / above.c;
    let near = (lower[start + 2] - far * above.d - middle * above.e) / above.f;
    let rest = lower[start + 3] - far * far - middle * middle - near * near;
    lower[start] = far;
    lower[start + 1] = middle;
    lower[start + 2] = near;
    Row {
        far,
        middle,
        near,
        rest,
    }
}

// The diagonal of row i, in place, and what the next row needs.
fn put_diagonal(lower: &mut [f64], i: usize, row: Row, above: Triangle) -> Triangle
    requires { (3 ≤ i) × HasRow 4 lower.old i × Left i row lower.old × Above i above lower.old }
    ensures { (lower.new ≡ put_entry 4 3 i i (sqrt_of row.rest) lower.old) × Above (i + 1) result lower.new }
{
    let root = geometry::root::sqrt(row.rest);
    lower[4 * i + 3] = root;
    Triangle {
        a: above.c,
        b: above.e,
        c: above.f,
        d: row.middle,
        e: row.near,
        f: root,
    }
}

// What row 3 needs.
fn first_triangle(lower: &[f64]) -> Triangle
    requires { 12 ≤ length lower.now }
    ensures { Above 3 result lower.now }
{
    Triangle {
        a: lower[3],
        b: lower[6],
        c: lower[7],
        d: lower[9],
        e: lower[10],
        f: lower[11],
    }
}

// The rows of L from row 3 on; none where a pivot is undetermined.
#[tactic(auto, using(crate::proofs::Loops::stops), unfolding(crate::specs::Cholesky::factor_row, crate::specs::Cholesky::factor_diagonal))]
fn factor_rest(lower: &mut [f64], n: usize, floor: f64) -> Option<()>
    requires { (3 ≤ n) × (n * 4 ≤ length lower.old) }
    ensures { outcome (is_some result) lower.new ≡ each_while 3 n (factor_row 3 floor) lower.old }
{
    let mut above = first_triangle(lower);
    for i in 3..n {
        let row = left_ahead(lower, i, above);
        if super::is_undetermined(floor, row.rest) {
            return None;
        }
        above = put_diagonal(lower, i, row, above);
    }
    Some(())
}

// All n rows; the first three, which reach fewer columns, by the way for every width.
pub fn factor_carried(lower: &mut [f64], n: usize, floor: f64) -> Option<()>
    requires { n * 4 ≤ length lower.old }
    ensures { outcome (is_some result) lower.new ≡ each_while 0 n (factor_row 3 floor) lower.old }
{
    if n < 3 {
        return super::factor_rows(lower, 3, n, floor);
    }
    super::factor_rows(lower, 3, 3, floor)?;
    factor_rest(lower, n, floor)
}
