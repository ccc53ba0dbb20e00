// What a grid call hands out: the surface's poles as the Rust holds them, row after row with u's poles along the rows' numbers, and both directions'
// knots. Poles go by their numbers along u and v, since they are handed out transposed.
ghost use Rattle.std.specs.Prelude.{◌≡◌, ◌+◌, ◌*◌, ◌≤◌, ◌<◌, length};
ghost use Rattle.places.specs.Places.{laid};
ghost use Rattle.geometry.specs.Doubles.{at};
ghost use Rattle.geometry.specs.Points.{point_at, points_of};
ghost use Rattle.tables.specs.Directions.{transposed};
ghost use Rattle.grids.specs.GridRuns.{placed, HasDirection, HandsDirection, HasBoth, HandsBoth};

use crate::GridFit;
use checks::slices::GridOutput;
use fitting::Fit;
use fitting::room::Regions;
use making::{Standing, StandingFit};

// A fit of a direction in its regions, as it is handed out. How it was made is not asked.
#[derive(Clone, Copy)]
pub struct Placed<'a, 'b> {
    pub degree: usize,
    pub at: &'a Regions<'b>,
    pub standing: Standing,
}

impl<'a, 'b> Placed<'a, 'b> {
    // A fit that stands.
    pub fn new(x: StandingFit<'_, '_, '_, '_, 'a, 'b>) -> Placed<'a, 'b>
        ensures { result ≡ placed x.entry }
    {
        Placed {
            degree: x.job.degree,
            at: x.at,
            standing: x.standing,
        }
    }
}

// Pole k of each of the columns, whose `count` poles each stand column after column.
#[tactic(auto, using(crate::proofs::SurfaceLaws::points))]
fn surface_row(from: &[f64], columns: usize, count: usize, k: usize, row: &mut [f64])
    requires { (columns ≤ 64) × (count ≤ 64) × (k < count) × (length from.now ≡ 3 * (columns * count)) × (length row.old ≡ 3 * columns) }
    ensures { row.new ≡ points_of columns (λ l. point_at from.now (l * count + k)) }
{
    for l in 0..columns {
        let q = geometry::point_at(from, l * count + k);
        geometry::put_point(row, l, q);
    }
}

// All of them.
#[tactic(auto, using(crate::proofs::SurfaceLaws::rows))]
pub fn surface_poles(from: &[f64], columns: usize, count: usize, poles: &mut [f64])
    requires { (columns ≤ 64) × (count ≤ 64) × (length from.now ≡ 3 * (columns * count)) × (3 * (columns * count) ≤ length poles.old) }
    ensures { poles.new ≡ laid 0 (3 * (columns * count)) (at (transposed columns count from.now)) poles.old }
{
    let width = 3 * columns;
    for k in 0..count {
        let start = k * width;
        surface_row(from, columns, count, k, &mut poles[start..start + width]);
    }
}

// The knots of a direction's fit, and its mark and counts. (A ladder hands out its poles with them; a grid's are handed out transposed.)
fn hand_direction(x: Placed, flat: &mut [f64], knots: &mut [f64], mults: &mut [u32]) -> Fit
    requires { HasDirection x flat.old knots.old mults.old }
    ensures { HandsDirection x.entry flat.old flat.new knots.old knots.new mults.old mults.new result }
{
    let at = x.at;
    let l = at.knots.count;
    Fit {
        mark: x.standing.mark,
        poles: l - x.degree - 1,
        knots: making::output::hand_knots(&at.knots.places[..l], flat, knots, mults),
        unreadable: x.standing.unreadable,
    }
}

// The fits of the rows and of the columns over it.
pub fn hand_both(rows: Placed, columns: Placed, out: &mut GridOutput) -> GridFit
    requires { HasBoth rows columns out.old }
    ensures { HandsBoth rows.entry columns.entry out.old out.new result }
{
    let u = hand_direction(columns, out.uflat, out.uknots, out.umults);
    let v = hand_direction(rows, out.vflat, out.vknots, out.vmults);
    let at = columns.at;
    let places = 3 * (v.poles * u.poles);
    surface_poles(&at.fit.poles[..places], v.poles, u.poles, out.poles);
    GridFit { u, v }
}
