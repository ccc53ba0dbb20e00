// Least-squares poles of lines of data (`least_squares`): the normal equations A'A x = A'b, factored once for all the lines. Rows, values
// and lines go by their numbers, from which their poles' places follow.
ghost use Rattle.std.specs.Prelude.{◌≡◌, ℕ, ◌+◌, ◌*◌, ◌≤◌, List, length, Float, is_some};
ghost use Rattle.std.specs.List.{list_all};
ghost use Rattle.places.specs.Loops.{each};
ghost use Rattle.places.specs.Places.{joined};
ghost use Rattle.geometry.specs.Doubles.{is_finite};
ghost use Rattle.knots.specs.OnLines.{on_line, on_lines};
ghost use Rattle.cholesky.specs.Cholesky.{substitute_symmetric_band};
ghost use Rattle.cholesky.specs.Together.{EachLine};
ghost use Rattle.tables.specs.Layout.{table_of, HasTable};
ghost use Rattle.solving.specs.LeastSquares.{normal_matrix, add_datum, right_hand};
ghost use Rattle.solving.specs.Steps.{add_row_product, add_row_value, add_to_pole, OntoBand, OntoPoles, HasPoints, HasSquares, Squared};

use bands::Band;
use cholesky::together::substitute_together;
use cholesky::{factor_symmetric_band, substitute_symmetric_band};
use geometry::Point;
use knots::lines::{Line, Lines};
use tables::basis_table::{Row, Table};

// A pivot at or below this times the largest diagonal is undetermined.
const RELATIVE_FLOOR: f64 = 1e-12;

// The row's value a with each value up to itself, onto the matrix.
#[tactic(auto, using(bands::proofs::Rows::loops, crate::proofs::SquareLaws::pole_row), unfolding(crate::specs::Steps::add_row_value, crate::specs::Steps::add_row_product))]
fn add_value(band: &mut [f64], row: Row, a: usize)
    requires { OntoBand row band.old × (a ≤ row.degree) }
    ensures { band.new ≡ add_row_value row.entry.degree row.entry.first row.entry.values.now a band.old }
{
    let p = row.degree;
    let i = row.first + a;
    let x = row.values[a];
    for c in 0..a + 1 {
        let j = row.first + c;
        let old = Band::lower(band, p).entry(i, j);
        bands::put_band_entry(band, p + 1, p, i, j, old + x * row.values[c]);
    }
}

// The products of one row of degree 3, with every number of places known to the compiler (docs/PERFORMANCE.md has what it saves).
#[tactic(auto, using(bands::proofs::Rows::loops))]
fn add_four(band: &mut [f64], first: usize, values: &[f64])
    requires { (length values.now ≡ 4) × ((first + 3) * 4 + 4 ≤ length band.old) }
    ensures { band.new ≡ each 0 4 (add_row_value 3 first values.now) band.old }
{
    let row = Row {
        degree: 3,
        first,
        values,
    };
    add_value(band, row, 0);
    add_value(band, row, 1);
    add_value(band, row, 2);
    add_value(band, row, 3);
}

// The products of one row.
#[tactic(auto, using(bands::proofs::Rows::loops))]
fn add_row(band: &mut [f64], row: Row)
    requires { OntoBand row band.old }
    ensures { band.new ≡ each 0 (row.entry.degree + 1) (add_row_value row.entry.degree row.entry.first row.entry.values.now) band.old }
{
    if row.degree == 3 {
        add_four(band, row.first, row.values);
        return;
    }
    for a in 0..row.degree + 1 {
        add_value(band, row, a);
    }
}

// The lower half-band of A'A.
#[tactic(auto, using(crate::proofs::SquareLaws::rows))]
pub fn normal_matrix(table: &Table, band: &mut [f64])
    requires { HasTable table.now × (length band.old ≡ table.now.poles * (table.now.degree + 1)) }
    ensures { band.new ≡ normal_matrix (table_of table.now) table.now.poles }
{
    band.fill(0.0);
    for k in 0..table.count() {
        add_row(band, table.row(k));
    }
}

// q times the values of one row, onto the poles.
#[tactic(auto, using(bands::proofs::Rows::loops), unfolding(crate::specs::Steps::add_to_pole))]
fn add_datum(poles: &mut [f64], row: Row, q: Point)
    requires { OntoPoles row poles.old }
    ensures { poles.new ≡ each 0 (row.entry.degree + 1) (add_to_pole row.entry.first q row.entry.values.now) poles.old }
{
    for (a, v) in row.values.iter().enumerate() {
        let i = row.first + a;
        let s = geometry::point_at(poles, i).plus_scaled(*v, q);
        geometry::put_point(poles, i, s);
    }
}

// A'b for a line.
#[tactic(auto, using(crate::proofs::SquareLaws::points))]
pub fn right_hand(table: &Table, line: Line, poles: &mut [f64])
    requires { HasPoints table.now line × (length poles.old ≡ 3 * table.now.poles) }
    ensures { poles.new ≡ right_hand (table_of table.now) table.now.poles (on_line line.entry) }
{
    poles.fill(0.0);
    for k in 0..table.count() {
        add_datum(poles, table.row(k), line.point(k));
    }
}

// A'b for each line, one after the other.
fn right_hands(table: &Table, lines: Lines, poles: &mut [f64])
    requires { HasSquares table.now lines (length poles.old) }
    ensures { EachLine table.now.poles lines.entry.lines (λ (r : ℕ) (x : List Float). right_hand (table_of table.now) table.now.poles (on_lines lines.entry r)) poles.old poles.new }
{
    let n = 3 * table.poles;
    for r in 0..lines.lines {
        right_hand(table, lines.line(r), &mut poles[r * n..r * n + n]);
    }
}

// The poles of all the lines, with the factor of A'A: one line by itself, and several together.
fn solve_lines(table: &Table, lines: Lines, lower: &[f64], poles: &mut [f64])
    requires has_squares { HasSquares table.now lines (length poles.old) }
    requires factored { length lower.now ≡ table.now.poles * (table.now.degree + 1) }
    ensures { poles.new ≡ joined lines.entry.lines (λ (r : ℕ). substitute_symmetric_band table.now.degree table.now.poles lower.now
        (right_hand (table_of table.now) table.now.poles (on_lines lines.entry r))) }
{
    right_hands(table, lines, poles);
    if lines.lines == 1 {
        substitute_symmetric_band(lower, poles, table.degree, table.poles);
        return;
    }
    substitute_together(lower, poles, lines.lines, table.degree, table.poles);
}

// Whether no value of the list is NaN or infinite.
pub fn all_finite(list: &[f64]) -> bool
    ensures { result ≡ list_all is_finite list.now }
{
    list.iter().all(|x| geometry::doubles::is_finite(*x))
}

// Least-squares poles of each line, one after the other; none where the data leaves a pole (nearly) undetermined or not finite. The matrix stands in `band`.
pub fn least_squares(table: &Table, lines: Lines, band: &mut [f64], poles: &mut [f64]) -> Option<()>
    requires has_squares { HasSquares table.now lines (length poles.old) }
    requires matrix { length band.old ≡ table.now.poles * (table.now.degree + 1) }
    ensures { Squared table.now lines.entry poles.new (is_some result) }
{
    normal_matrix(table, band);
    factor_symmetric_band(band, table.degree, table.poles, RELATIVE_FLOOR)?;
    solve_lines(table, lines, band, poles);
    all_finite(poles).then_some(())
}
