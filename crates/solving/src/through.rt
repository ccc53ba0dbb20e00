// Interpolating poles of lines of data: a band matrix, its LU factors, and each line solved in its place. Rows, points
// and lines go by their numbers, from which the places of their entries and poles follow.
ghost use Rattle.std.specs.Prelude.{◌≡◌, ◌+◌, ◌-◌, ◌*◌, ◌≤◌, ◌<◌, ◌^◌, length};
ghost use Rattle.places.specs.Loops.{each};
ghost use Rattle.geometry.specs.Points.{points_of};
ghost use Rattle.bands.specs.Shapes.{HasRow};
ghost use Rattle.knots.specs.OnLines.{on_line, on_lines};
ghost use Rattle.tables.specs.Layout.{table_of, HasTable};
ghost use Rattle.solving.specs.Interpolation.{interpolation, interpolation_matrix, put_within, line_through};
ghost use Rattle.solving.specs.Through.{put_column, HasMatrix, HasInterpolation};

use knots::lines::{Line, Lines};
use tables::basis_table::{Row, Table};

// Puts x for A[j][column] of a band of half-width h, unless that is outside the band.
#[tactic(auto, unfolding(crate::specs::Interpolation::put_within))]
fn put_within(band: &mut [f64], h: usize, j: usize, column: usize, x: f64)
    requires { (column + h < 2 ^ 64) × HasRow (2 * h + 1) band.old j }
    ensures { band.new ≡ put_within h j column x band.old }
{
    if j <= column + h && column <= j + h {
        bands::put_band_entry(band, 2 * h + 1, h, j, column, x);
    }
}

// Row j of the matrix, from a row of the table.
#[tactic(auto, using(bands::proofs::Rows::loops), unfolding(crate::specs::Through::put_column))]
fn put_row(band: &mut [f64], h: usize, j: usize, row: Row)
    requires { (row.first + row.degree + 1 + h < 2 ^ 64) × HasRow (2 * h + 1) band.old j }
    ensures { band.new ≡ each 0 (row.entry.degree + 1) (put_column h j row.entry.first row.entry.values.now) band.old }
{
    for (a, x) in row.values.iter().enumerate() {
        put_within(band, h, j, row.first + a, *x);
    }
}

// The matrix, of half-bandwidth degree - 1.
#[tactic(auto, using(crate::proofs::ThroughLaws::rows))]
pub fn interpolation_matrix(table: &Table, band: &mut [f64])
    requires { HasMatrix table.now (length band.old) }
    ensures { band.new ≡ interpolation_matrix (table_of table.now) }
{
    band.fill(0.0);
    for j in 0..table.count() {
        put_row(band, table.degree - 1, j, table.row(j));
    }
}

// A line's points.
#[tactic(auto, using(tables::proofs::PointsLaws::filling))]
fn put_line(line: Line, poles: &mut [f64])
    requires { length poles.old ≡ 3 * line.count }
    ensures { poles.new ≡ points_of line.entry.count (on_line line.entry) }
{
    for k in 0..line.count {
        geometry::put_point(poles, k, line.point(k));
    }
}

// A line's poles, with the factored matrix of half-width h: the end poles are the end points.
#[tactic(auto, unfolding(crate::specs::Interpolation::line_through))]
fn interpolated_line(line: Line, h: usize, band: &[f64], poles: &mut [f64])
    requires { (h ≤ 25) × (line.count * (2 * h + 1) ≤ length band.now) × (length poles.old ≡ 3 * line.count) }
    ensures { poles.new ≡ line_through h line.entry.count band.now (on_line line.entry) }
{
    let n = line.count;
    put_line(line, poles);
    lu::substitute_band(band, poles, h, n);
    geometry::put_point(poles, 0, line.point(0));
    geometry::put_point(poles, n - 1, line.point(n - 1));
}

// The poles of the lines, one after the other. The matrix stands in `band`.
pub fn interpolation(table: &Table, lines: Lines, band: &mut [f64], poles: &mut [f64])
    requires matrix { HasMatrix table.now (length band.old) }
    requires lines { HasInterpolation table.now lines (length poles.old) }
    ensures { poles.new ≡ interpolation (table_of table.now) lines.entry.lines (on_lines lines.entry) }
{
    let n = table.count();
    let h = table.degree - 1;
    interpolation_matrix(table, band);
    lu::factor_band(band, h, n);
    for r in 0..lines.lines {
        let from = r * (3 * n);
        interpolated_line(lines.line(r), h, band, &mut poles[from..from + 3 * n]);
    }
}
