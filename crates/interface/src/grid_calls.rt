// The grid calls.
ghost use Rattle.checks.specs.declared.SurfaceCall.TheVariants.{Approximate};
ghost use Rattle.checks.specs.GridChecks.{grid_of, grid_lent};
ghost use Rattle.knots.specs.Parameters.{metric_of};
ghost use Rattle.telling.specs.ToldGrid.{shape_of, ToldGrid, ToldGridWithin};

use checks::given::Grid;
use checks::slices::GridOutput;
use checks::{Shape, SurfaceCall};
use knots::Metric;
use telling::grid::call_grid;

// Least squares with chosen pole counts along u and v.
#[unsafe(no_mangle)]
pub extern "C" fn nigorzai_approximate_grid(
    points: &[f64],
    rows: usize,
    cols: usize,
    udegree: usize,
    vdegree: usize,
    ucount: usize,
    vcount: usize,
    spacing: usize,
    factor: f64,
    poles: &mut [f64],
    uflat: &mut [f64],
    uknots: &mut [f64],
    umults: &mut [u32],
    vflat: &mut [f64],
    vknots: &mut [f64],
    vmults: &mut [u32],
    work: &mut [f64],
    index: &mut [usize],
    largest: &mut [f64],
    counts: &mut [usize],
) -> u32
    ensures { ToldGrid (Approximate ucount vcount) (grid_of points.now (shape_of rows cols udegree vdegree) (metric_of spacing factor))
        (grid_lent poles.old uflat.old uknots.old umults.old vflat.old vknots.old vmults.old work.old index.old)
        (grid_lent poles.new uflat.new uknots.new umults.new vflat.new vknots.new vmults.new work.new index.new)
        largest.old largest.new counts.old counts.new result }
{
    let shape = Shape {
        rows,
        cols,
        u: udegree,
        v: vdegree,
    };
    let grid = Grid {
        points,
        shape,
        metric: Metric::new(spacing, factor),
    };
    let mut out = GridOutput {
        poles,
        uflat,
        uknots,
        umults,
        vflat,
        vknots,
        vmults,
    };
    let call = SurfaceCall::Approximate(ucount, vcount);
    call_grid(grid, call, &mut out, work, index, largest, counts)
}

// Within a tolerance: the rows within 0.8 of it along v, then the whole grid within it along u.
#[unsafe(no_mangle)]
pub extern "C" fn nigorzai_approximate_grid_within(
    points: &[f64],
    rows: usize,
    cols: usize,
    udegree: usize,
    vdegree: usize,
    tolerance: f64,
    spacing: usize,
    factor: f64,
    poles: &mut [f64],
    uflat: &mut [f64],
    uknots: &mut [f64],
    umults: &mut [u32],
    vflat: &mut [f64],
    vknots: &mut [f64],
    vmults: &mut [u32],
    work: &mut [f64],
    index: &mut [usize],
    largest: &mut [f64],
    counts: &mut [usize],
) -> u32
    ensures { ToldGridWithin (grid_of points.now (shape_of rows cols udegree vdegree) (metric_of spacing factor)) tolerance
        (grid_lent poles.old uflat.old uknots.old umults.old vflat.old vknots.old vmults.old work.old index.old)
        (grid_lent poles.new uflat.new uknots.new umults.new vflat.new vknots.new vmults.new work.new index.new)
        largest.old largest.new counts.old counts.new result }
{
    let shape = Shape {
        rows,
        cols,
        u: udegree,
        v: vdegree,
    };
    let grid = Grid {
        points,
        shape,
        metric: Metric::new(spacing, factor),
    };
    let mut out = GridOutput {
        poles,
        uflat,
        uknots,
        umults,
        vflat,
        vknots,
        vmults,
    };
    let call = SurfaceCall::ApproximateWithin(tolerance);
    call_grid(grid, call, &mut out, work, index, largest, counts)
}
