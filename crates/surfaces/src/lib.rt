// The grid calls (document 01, part 4): their checks, then the fits, then work and index cleared.
// Each call has its own promise, and hands on to `fit_grid`.
#![tactic(auto)]

ghost use Rattle.checks.specs.Slices.{grid_in, grid_lent_with, SameGridOutput};
ghost use Rattle.grids.specs.Grids.{GridCall, ApproximatesGrid, ApproximatesGridWithin};

use bspline::Refusal;
use checks::SurfaceCall;
use checks::given::Grid;
use checks::grid::check_grid;
use checks::slices::GridOutput;
use grids::GridFit;
use grids::fits::fit_passed;

// Either of the calls.
pub fn fit_grid(
    grid: Grid,
    call: SurfaceCall,
    out: &mut GridOutput,
    work: &mut [f64],
    index: &mut [usize],
) -> Result<GridFit, Refusal>
    ensures call { GridCall call (grid_in grid.entry) (grid_lent_with out.old work.old index.old) (grid_lent_with out.new work.new index.new) result }
    ensures same { SameGridOutput out.old out.new }
{
    check_grid(grid, out.room(work, index))?;
    let answer = fit_passed(grid, call, out, work, index);
    work.fill(0.0);
    index.fill(0);
    answer
}

// The grid's `approximate`: least squares with chosen pole counts along u and v.
pub fn approximate(
    grid: Grid,
    ucount: usize,
    vcount: usize,
    out: &mut GridOutput,
    work: &mut [f64],
    index: &mut [usize],
) -> Result<GridFit, Refusal>
    ensures call { ApproximatesGrid (grid_in grid.entry) ucount vcount (grid_lent_with out.old work.old index.old) (grid_lent_with out.new work.new index.new) result }
    ensures same { SameGridOutput out.old out.new }
{
    fit_grid(
        grid,
        SurfaceCall::Approximate(ucount, vcount),
        out,
        work,
        index,
    )
}

// The grid's `approximate_within`: the rows within 0.8 of the tolerance, then the whole grid within it.
pub fn approximate_within(
    grid: Grid,
    tolerance: f64,
    out: &mut GridOutput,
    work: &mut [f64],
    index: &mut [usize],
) -> Result<GridFit, Refusal>
    ensures call { ApproximatesGridWithin (grid_in grid.entry) tolerance (grid_lent_with out.old work.old index.old) (grid_lent_with out.new work.new index.new) result }
    ensures same { SameGridOutput out.old out.new }
{
    fit_grid(
        grid,
        SurfaceCall::ApproximateWithin(tolerance),
        out,
        work,
        index,
    )
}
