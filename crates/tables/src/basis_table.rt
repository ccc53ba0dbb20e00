// The basis functions that are not zero at each of rising parameters, found once for every line of data (`BasisTable`).
ghost use Rattle.std.specs.Prelude.{◌≡◌, ◌+◌, ◌*◌, ◌≤◌, length};
ghost use Rattle.tables.specs.BasisTable.{basis_table};

use crate::rows::BasisRows;
use geometry::Point;

// The rows of a table, one a parameter, in their places: the search for the span of a parameter goes on from that of the one before.
pub fn fill_table(
    flat: &[f64],
    degree: usize,
    params: &[f64],
    firsts: &mut [usize],
    values: &mut [f64],
)
    requires { (2 * degree + 2 ≤ length flat.now) × (length firsts.old ≡ length params.now) × (length values.old ≡ length params.now * (degree + 1)) }
    ensures firsts_after { firsts.new ≡ (basis_table flat.now degree params.now).firsts }
    ensures values_after { values.new ≡ (basis_table flat.now degree params.now).values }
{
    let width = degree + 1;
    let mut rows = BasisRows::new(flat, degree, degree);
    // by number: what a list holds after `iter_mut().zip(..)` or `chunks_mut`, or once its rest is split off, is not known
    for (k, t) in params.iter().enumerate() {
        rows = rows.at(*t);
        bspline::basis::basis_values(
            flat,
            rows.span,
            degree,
            *t,
            &mut values[k * width..(k + 1) * width],
        );
        firsts[k] = rows.span - degree;
    }
}

// The table of knots with so many poles: for each parameter the first pole whose basis function is not zero there, and, one row after the other, the
// degree + 1 values from that pole on.
#[derive(Clone, Copy)]
pub struct Table<'a> {
    pub degree: usize,
    pub poles: usize,
    pub firsts: &'a [usize],
    pub values: &'a [f64],
}

// The places that a table is made in.
#[derive(Drop)]
pub struct TablePlaces<'a> {
    pub degree: usize,
    pub poles: usize,
    pub firsts: &'a mut [usize],
    pub values: &'a mut [f64],
}

// Row k: the first pole, and its values.
#[derive(Clone, Copy)]
pub struct Row<'a> {
    pub degree: usize,
    pub first: usize,
    pub values: &'a [f64],
    pub ghost low: { degree ≤ 25 },
    pub ghost long: { length values.now ≡ degree + 1 },
}

impl TablePlaces<'_> {
    ghost use Rattle.std.specs.Prelude.{◌≡◌};
    ghost use Rattle.tables.specs.Layout.{FillsTable, Filled, read_of};

    // The table of these flat knots at these parameters, in its place.
    pub fn fill(&mut self, flat: &[f64], params: &[f64])
        requires { FillsTable self.old flat.now params.now }
        ensures filled { Filled self.old self.new flat.now params.now }
        ensures same { (self.new.firsts.ghost_name ≡ self.old.firsts.ghost_name) × (self.new.values.ghost_name ≡ self.old.values.ghost_name) }
    {
        let degree = self.degree;
        self.poles = flat.len() - degree - 1;
        fill_table(flat, degree, params, self.firsts, self.values);
    }

    // The table that stands there.
    pub fn table(&self) -> Table<'_>
        ensures { result ≡ read_of self.now }
    {
        Table {
            degree: self.degree,
            poles: self.poles,
            firsts: self.firsts,
            values: self.values,
        }
    }
}

impl<'a> Table<'a> {
    ghost use Rattle.std.specs.Prelude.{◌≡◌, ◌+◌, ◌*◌, ◌≤◌, ◌<◌, length, get_or};
    ghost use Rattle.places.specs.Regions.{part};
    ghost use Rattle.tables.specs.BasisTable.{table_point};
    ghost use Rattle.tables.specs.Layout.{table_of, HasRow, Readable};

    // How many parameters it has.
    pub fn count(&self) -> usize
        ensures { result ≡ length self.now.firsts.now }
    {
        self.firsts.len()
    }

    pub fn row(&self, k: usize) -> Row<'a>
        requires { HasRow self.now k }
        ensures place { (result.degree ≡ self.now.degree) × (result.first ≡ get_or self.now.firsts.now k 0) }
        ensures values { result.values.now ≡ part (k * (self.now.degree + 1)) (k * (self.now.degree + 1) + (self.now.degree + 1)) self.now.values.now }
    {
        let width = self.degree + 1;
        Row {
            degree: self.degree,
            first: self.firsts[k],
            values: &self.values[k * width..k * width + width],
        }
    }

    // The point at parameter k of the curve whose poles stand in the list from pole `start` on (`BasisTable::point`): one list holds the poles of many lines.
    pub fn point(&self, poles: &[f64], start: usize, k: usize) -> Point
        requires { Readable self.now start k (length poles.now) }
        ensures { result ≡ table_point (table_of self.now) poles.now start k }
    {
        let row = self.row(k);
        bspline::reader::pole_sum(row.values, poles, start + row.first)
    }
}
