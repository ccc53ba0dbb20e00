// The functions over a table and lines of data; a table comes as its lists, and lines as their numbers.
ghost use Rattle.std.specs.Prelude.{◌≡◌, ◌+◌, ◌-◌, ◌*◌, ◌≤◌, cond, length, set};
ghost use Rattle.std.proofs.Math.Option.{none, some};
ghost use Rattle.geometry.specs.Doubles.{one};
ghost use Rattle.knots.specs.Lines.{lines_of};
ghost use Rattle.tables.specs.BasisTable.{basis_table};
ghost use Rattle.tables.specs.Deviations.{ladder_distances, row_distances, grid_distances, point_deviations, largest_over_rows, largest_over_columns};
ghost use Rattle.tables.specs.Directions.{transposed};
ghost use Rattle.tables.specs.Measures.{measured, LeavesSquares};
ghost use Rattle.solving.specs.LeastSquares.{least_squares};
ghost use Rattle.solving.specs.Interpolation.{interpolation};
ghost use Rattle.pieces.specs.Fits.{table_by, FillsBy, TableBy, LinesBy};

use knots::lines::Lines;
use tables::basis_table::{Table, fill_table};
use tables::deviations::{grid_deviations, ladder_deviations, row_deviations};

#[unsafe(no_mangle)]
pub extern "C" fn pieces_fill_table(
    flat: &[f64],
    degree: usize,
    params: &[f64],
    firsts: &mut [usize],
    values: &mut [f64],
)
    requires { FillsBy degree flat.now params.now firsts.old values.old }
    ensures firsts_after { firsts.new ≡ (basis_table flat.now degree params.now).firsts }
    ensures values_after { values.new ≡ (basis_table flat.now degree params.now).values }
{
    fill_table(flat, degree, params, firsts, values);
}

#[unsafe(no_mangle)]
pub extern "C" fn pieces_least_squares(
    degree: usize,
    m: usize,
    firsts: &[usize],
    values: &[f64],
    points: &[f64],
    lines: usize,
    pitch: usize,
    stride: usize,
    band: &mut [f64],
    poles: &mut [f64],
) -> bool
    requires table { TableBy degree m firsts.now values.now }
    requires lines { LinesBy (length firsts.now) m lines pitch stride (length poles.old) points.now }
    requires matrix { length band.old ≡ m * (degree + 1) }
    ensures { least_squares (table_by degree firsts.now values.now) m lines (lines_of points.now pitch stride) ≡ cond result (some poles.new) none }
{
    let given = Lines {
        points,
        lines,
        pitch,
        count: firsts.len(),
        stride,
    };
    let table = Table {
        degree,
        poles: m,
        firsts,
        values,
    };
    solving::squares::least_squares(&table, given, band, poles).is_some()
}

#[unsafe(no_mangle)]
pub extern "C" fn pieces_interpolation(
    degree: usize,
    firsts: &[usize],
    values: &[f64],
    points: &[f64],
    lines: usize,
    pitch: usize,
    stride: usize,
    band: &mut [f64],
    poles: &mut [f64],
)
    requires table { TableBy degree (length firsts.now) firsts.now values.now }
    requires lines { LinesBy (length firsts.now) (length firsts.now) lines pitch stride (length poles.old) points.now }
    requires matrix { length band.old ≡ length firsts.now * (2 * (degree - 1) + 1) }
    ensures { poles.new ≡ interpolation (table_by degree firsts.now values.now) lines (lines_of points.now pitch stride) }
{
    let count = firsts.len();
    let given = Lines {
        points,
        lines,
        pitch,
        count,
        stride,
    };
    let table = Table {
        degree,
        poles: count,
        firsts,
        values,
    };
    solving::through::interpolation(&table, given, band, poles);
}

// The number of unreadable distances, with the largest in place 0 of `most`, and the squares of the deviations in their places.
#[unsafe(no_mangle)]
pub extern "C" fn pieces_ladder_deviations(
    degree: usize,
    m: usize,
    firsts: &[usize],
    values: &[f64],
    poles: &[f64],
    points: &[f64],
    squares: &mut [f64],
    most: &mut [f64],
) -> usize
    requires table { TableBy degree m firsts.now values.now }
    requires room { (3 * m ≤ length poles.now) × (length squares.old ≡ length firsts.now) × (3 * length firsts.now ≤ length points.now) × (1 ≤ length most.old) }
    ensures value { result ≡ (measured (ladder_distances one (table_by degree firsts.now values.now) poles.now points.now)).unreadable }
    ensures most_after { most.new ≡ set most.old 0 (measured (ladder_distances one (table_by degree firsts.now values.now) poles.now points.now)).largest }
    ensures leaves_squares { LeavesSquares point_deviations (ladder_distances one (table_by degree firsts.now values.now) poles.now points.now) squares.new
        (measured (ladder_distances one (table_by degree firsts.now values.now) poles.now points.now)) }
{
    let table = Table {
        degree,
        poles: m,
        firsts,
        values,
    };
    let measured = ladder_deviations(points, 1.0, &table, poles, squares);
    most[0] = measured.largest;
    measured.unreadable
}

#[unsafe(no_mangle)]
pub extern "C" fn pieces_row_deviations(
    degree: usize,
    m: usize,
    firsts: &[usize],
    values: &[f64],
    rows: usize,
    poles: &[f64],
    points: &[f64],
    squares: &mut [f64],
    most: &mut [f64],
) -> usize
    requires table { TableBy degree m firsts.now values.now }
    requires room { (3 * (rows * m) ≤ length poles.now) × (length squares.old ≡ length firsts.now) × (3 * (rows * length firsts.now) ≤ length points.now) × (1 ≤ length most.old) }
    ensures value { result ≡ (measured (row_distances one rows (table_by degree firsts.now values.now) m poles.now points.now)).unreadable }
    ensures most_after { most.new ≡ set most.old 0 (measured (row_distances one rows (table_by degree firsts.now values.now) m poles.now points.now)).largest }
    ensures leaves_squares { LeavesSquares (largest_over_rows rows (length firsts.now)) (row_distances one rows (table_by degree firsts.now values.now) m poles.now points.now) squares.new
        (measured (row_distances one rows (table_by degree firsts.now values.now) m poles.now points.now)) }
{
    let table = Table {
        degree,
        poles: m,
        firsts,
        values,
    };
    let measured = row_deviations(points, 1.0, &table, rows, poles, squares);
    most[0] = measured.largest;
    measured.unreadable
}

// The tables along u and v by degree, poles, first poles and values.
#[unsafe(no_mangle)]
pub extern "C" fn pieces_grid_deviations(
    pu: usize,
    mu: usize,
    fu: &[usize],
    wu: &[f64],
    pv: usize,
    mv: usize,
    fv: &[usize],
    wv: &[f64],
    poles: &[f64],
    points: &[f64],
    curve: &mut [f64],
    squares: &mut [f64],
    most: &mut [f64],
) -> usize
    requires tables { TableBy pu mu fu.now wu.now × TableBy pv mv fv.now wv.now }
    requires given { (3 * (mv * mu) ≤ length poles.now) × (3 * (length fu.now * length fv.now) ≤ length points.now) }
    requires room { (length curve.old ≡ 3 * mv) × (length squares.old ≡ length fu.now) × (1 ≤ length most.old) }
    ensures value { result ≡ (measured (grid_distances one (table_by pu fu.now wu.now) (table_by pv fv.now wv.now) mv (transposed mv mu poles.now) points.now)).unreadable }
    ensures most_after { most.new ≡ set most.old 0 (measured (grid_distances one (table_by pu fu.now wu.now) (table_by pv fv.now wv.now) mv (transposed mv mu poles.now) points.now)).largest }
    ensures leaves_squares { LeavesSquares (largest_over_columns (length fu.now) (length fv.now))
        (grid_distances one (table_by pu fu.now wu.now) (table_by pv fv.now wv.now) mv (transposed mv mu poles.now) points.now) squares.new
        (measured (grid_distances one (table_by pu fu.now wu.now) (table_by pv fv.now wv.now) mv (transposed mv mu poles.now) points.now)) }
{
    let u = Table {
        degree: pu,
        poles: mu,
        firsts: fu,
        values: wu,
    };
    let v = Table {
        degree: pv,
        poles: mv,
        firsts: fv,
        values: wv,
    };
    let measured = grid_deviations(points, 1.0, &u, &v, poles, curve, squares);
    most[0] = measured.largest;
    measured.unreadable
}
