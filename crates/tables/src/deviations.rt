// How far the points lie from a fit read at their own parameters. The squares of the distances stand in the lent places; a root is taken of the largest
// alone. Parameters, rows and columns go by their numbers: a table and a list of points are read by them.
ghost use Rattle.std.specs.Prelude.{◌≡◌, ◌*◌, ◌<◌, length};
ghost use Rattle.places.specs.Places.{list_of};
ghost use Rattle.geometry.specs.Doubles.{at, larger};
ghost use Rattle.tables.specs.Deviations.{ladder_distances, row_distances, grid_distances, point_deviations, largest_over_rows, largest_over_columns};
ghost use Rattle.tables.specs.Directions.{transposed};
ghost use Rattle.tables.specs.Layout.{table_of, HasBeside};
ghost use Rattle.tables.specs.Measures.{squares_measured, curve_of, HasLadder, HasRows, HasColumns, HasGrid, LeavesSquares};

use crate::Measured;
use crate::basis_table::Table;
use geometry::Point;

// A line of points, from point `first` on, beside the curve of a table whose poles begin at pole `start`, and the lightness factor of the distances.
// One list holds many curves and lines. Its three loops differ in what they keep of a square: a closure would write the list that the loop lends.
#[derive(Clone, Copy)]
struct Beside<'a, 'b> {
    table: &'a Table<'b>,
    poles: &'a [f64],
    start: usize,
    points: &'a [f64],
    first: usize,
    factor: f64,
    ghost inside: { HasBeside table.now start first (length poles.now) (length points.now) },
}

impl Beside<'_, '_> {
    ghost use Rattle.tables.specs.Squares.{square_beside};

    // The square of the distance at parameter k.
    #[tactic(auto, using(crate::proofs::ReadingLaws::readable))]
    fn square(&self, k: usize) -> f64
        requires { k < length self.now.table.now.firsts.now }
        ensures { result ≡ square_beside self.now k }
    {
        let q = self.table.point(self.poles, self.start, k);
        q.squared_distance(geometry::point_at(self.points, self.first + k), self.factor)
    }

    // Each square in its place.
    #[tactic(auto, using(crate::proofs::MeasureLaws::placing))]
    fn lay_squares(&self, squares: &mut [f64]) -> Measured
        requires { length squares.old ≡ length self.now.table.now.firsts.now }
        ensures value { result ≡ squares_measured (list_of (length squares.old) (square_beside self.now)) }
        ensures squares_after { squares.new ≡ list_of (length squares.old) (square_beside self.now) }
    {
        let mut total = Measured::none();
        for k in 0..self.table.count() {
            let s = self.square(k);
            total = total.with_square(s);
            squares[k] = s;
        }
        total
    }

    // Each square in its place where it is larger than what stands there.
    #[tactic(auto, using(crate::proofs::MeasureLaws::placing))]
    fn raise_squares(&self, squares: &mut [f64]) -> Measured
        requires { length squares.old ≡ length self.now.table.now.firsts.now }
        ensures value { result ≡ squares_measured (list_of (length squares.old) (square_beside self.now)) }
        ensures squares_after { squares.new ≡ list_of (length squares.old) (λ k. larger (at squares.old k) (square_beside self.now k)) }
    {
        let mut total = Measured::none();
        for k in 0..self.table.count() {
            let s = self.square(k);
            total = total.with_square(s);
            squares[k] = geometry::doubles::max(squares[k], s);
        }
        total
    }

    // The squares' measures alone.
    #[tactic(auto, using(crate::proofs::MeasureLaws::placing))]
    fn measure_squares(&self) -> Measured
        ensures { result ≡ squares_measured (list_of (length self.now.table.now.firsts.now) (square_beside self.now)) }
    {
        let mut total = Measured::none();
        for k in 0..self.table.count() {
            total = total.with_square(self.square(k));
        }
        total
    }
}

// A ladder's points against the curve: the square of each point's distance in its place.
pub fn ladder_deviations(
    points: &[f64],
    factor: f64,
    table: &Table,
    poles: &[f64],
    squares: &mut [f64],
) -> Measured
    requires { HasLadder table.now (length poles.now) (length squares.old) (length points.now) }
    ensures { LeavesSquares point_deviations (ladder_distances factor (table_of table.now) poles.now points.now) squares.new result }
{
    let line = Beside {
        table,
        poles,
        start: 0,
        points,
        first: 0,
        factor,
    };
    line.lay_squares(squares).rooted()
}

// A grid's rows, each against its own poles: in its place each column's largest square over the rows.
pub fn row_deviations(
    points: &[f64],
    factor: f64,
    table: &Table,
    rows: usize,
    poles: &[f64],
    squares: &mut [f64],
) -> Measured
    requires { HasRows table.now rows (length poles.now) (length squares.old) (length points.now) }
    ensures { LeavesSquares (largest_over_rows rows (length squares.old)) (row_distances factor rows (table_of table.now) table.now.poles poles.now points.now) squares.new result }
{
    squares.fill(0.0);
    let mut total = Measured::none();
    for i in 0..rows {
        let row = Beside {
            table,
            poles,
            start: i * table.poles,
            points,
            first: i * table.count(),
            factor,
        };
        total = total.with_all(row.raise_squares(squares));
    }
    total.rooted()
}

// The poles of the v curve at u parameter i: column l's poles stand from pole l * u.poles on.
#[tactic(auto, using(crate::proofs::PointsLaws::filling, crate::proofs::ReadingLaws::readable))]
fn curve_poles(u: &Table, poles: &[f64], columns: usize, i: usize, curve: &mut [f64])
    requires { HasColumns u.now columns (length poles.now) × (i < length u.now.firsts.now) × (length curve.old ≡ 3 * columns) }
    ensures { curve.new ≡ curve_of (table_of u.now) columns u.now.poles poles.now i }
{
    for l in 0..columns {
        let q = u.point(poles, l * u.poles, i);
        geometry::put_point(curve, l, q);
    }
}

// A grid's points, each against the whole surface at its pair of parameters, the columns' poles line after line: in its place each row's largest square.
pub fn grid_deviations(
    points: &[f64],
    factor: f64,
    u: &Table,
    v: &Table,
    poles: &[f64],
    curve: &mut [f64],
    squares: &mut [f64],
) -> Measured
    requires { HasGrid u.now v.now (length poles.now) (length curve.old) (length squares.old) (length points.now) }
    ensures { LeavesSquares (largest_over_columns (length u.now.firsts.now) (length v.now.firsts.now))
        (grid_distances factor (table_of u.now) (table_of v.now) v.now.poles (transposed v.now.poles u.now.poles poles.now) points.now) squares.new result }
{
    let mut total = Measured::none();
    for i in 0..u.count() {
        curve_poles(u, poles, v.poles, i, curve);
        let row = Beside {
            table: v,
            poles: curve,
            start: 0,
            points,
            first: i * v.count(),
            factor,
        };
        let measured = row.measure_squares();
        squares[i] = measured.largest;
        total = total.with_all(measured);
    }
    total.rooted()
}
