// A grid that passed its checks: both directions' parameters, the rows' fit, and the columns' fit over it.
ghost use Rattle.std.specs.Prelude.{◌≡◌, ◌≤◌, ◌<◌, [], length};
ghost use Rattle.tables.specs.Directions.{row_point, column_point};
ghost use Rattle.tables.specs.Layout.{read_of};
ghost use Rattle.knots.specs.OnLines.{on_lines};
ghost use Rattle.checks.specs.GridChecks.{GridShaped, GridRoomy, grid_room_of};
ghost use Rattle.checks.specs.Slices.{grid_in, grid_lent_with, SameGridOutput};
ghost use Rattle.grids.specs.Grids.{fit_grid_by, grid_fit, HandsOutGrid};
ghost use Rattle.grids.specs.GridRuns.{columns_over, RowsJob, OnSurface, ColumnsJob, OverRows, HasParams, HasGridOutput, ColumnsRoom, RowsRoom, TableStands};
ghost use Rattle.fitting.specs.Jobs.{HasRegions, HasKnots};

use crate::GridFit;
use crate::aims::{column_aim, row_aim};
use crate::output::{Placed, hand_both};
use bspline::Refusal;
use checks::SurfaceCall;
use checks::given::Grid;
use checks::grid::check_counts;
use checks::slices::GridOutput;
use fitting::room::Regions;
use fitting::{Job, Kind, Surface};
use knots::lines::Lines;
use knots::parameters::shared_parameters;
use making::StandingFit;
use making::saved::{SavedFit, saved_places};

// The rows.
fn rows_of(grid: Grid) -> Lines
    requires { GridShaped (length grid.points.now) grid.shape }
    ensures points { (on_lines result ≡ row_point grid.entry.points.now grid.entry.shape.cols) × (result.points ≡ grid.entry.points) }
    ensures counts { (result.lines ≡ grid.entry.shape.rows) × (result.count ≡ grid.entry.shape.cols) }
{
    Lines {
        points: grid.points,
        lines: grid.shape.rows,
        pitch: grid.shape.cols,
        count: grid.shape.cols,
        stride: 1,
    }
}

// The columns.
fn columns_of(grid: Grid) -> Lines
    requires { GridShaped (length grid.points.now) grid.shape }
    ensures points { on_lines result ≡ column_point grid.entry.points.now grid.entry.shape.cols }
    ensures counts { (result.lines ≡ grid.entry.shape.cols) × (result.count ≡ grid.entry.shape.rows) }
{
    Lines {
        points: grid.points,
        lines: grid.shape.cols,
        pitch: 1,
        count: grid.shape.rows,
        stride: grid.shape.cols,
    }
}

// The rows, to be fitted along v. (A ladder and the columns give the same struct of other parts.)
fn rows_job<'a>(grid: Grid<'a>, v_params: &'a [f64]) -> Job<'a, 'a, 'a, 'a>
    requires shaped { GridShaped (length grid.points.now) grid.shape }
    requires params { (length v_params.now ≡ grid.shape.cols) × (grid.shape.v < grid.shape.cols) }
    ensures { RowsJob grid.entry v_params.now result }
{
    Job {
        degree: grid.shape.v,
        factor: grid.metric.factor,
        params: v_params,
        lines: rows_of(grid),
        kind: Kind::Rows,
    }
}

// The table of the knots that stand there.
fn fill_table(job: Job, at: &mut Regions)
    requires { HasRegions job at.old × HasKnots job at.old.knots.count }
    ensures { TableStands job.entry at.old at.new }
{
    at.fit.fill(&at.knots, job.params);
}

// The columns of the rows' poles, to be fitted along u over the rows' fit, which stands with its table.
fn columns_job<'a, 'b>(
    grid: Grid<'a>,
    rows: StandingFit<'a, 'a, 'a, 'a, 'a, 'b>,
    u_params: &'a [f64],
) -> Job<'a, 'a, 'a, 'a>
    requires over { OverRows grid rows }
    requires params { (length u_params.now ≡ grid.shape.rows) × (grid.shape.u < grid.shape.rows) }
    ensures job { ColumnsJob grid.entry rows.entry u_params.now result }
    ensures read { OnSurface result.kind (λ s. s.across ≡ read_of rows.entry.at.now.fit.table) }
{
    let shape = grid.shape;
    let below = rows.at;
    let columns = below.knots.count - shape.v - 1;
    let lines = Lines {
        points: &below.fit.poles[..3 * (shape.rows * columns)],
        lines: columns,
        pitch: 1,
        count: shape.rows,
        stride: columns,
    };
    let surface = Surface {
        points: grid.points,
        across: below.fit.table.table(),
    };
    Job {
        degree: shape.u,
        factor: rows.job.factor,
        params: u_params,
        lines,
        kind: Kind::Columns(surface),
    }
}

// The columns' fit.
fn fit_columns(
    grid: Grid,
    call: SurfaceCall,
    rows: StandingFit,
    u_params: &[f64],
    out: &mut GridOutput,
    work: &mut [f64],
    index: &mut [usize],
) -> Result<GridFit, Refusal>
    requires params { HasParams call grid (length u_params.now) (length rows.job.params.now) }
    requires over { OverRows grid rows }
    requires room { HasGridOutput grid.shape out.old × ColumnsRoom grid.shape (length work.old) (length index.old) }
    ensures hands { HandsOutGrid grid.entry.shape (columns_over call grid.entry rows.entry u_params.now) (grid_lent_with out.old [] []) (grid_lent_with out.new [] []) result }
    ensures same { SameGridOutput out.old out.new }
{
    let job = columns_job(grid, rows, u_params);
    let sizes = job.sizes();
    let (near, work) = work.split_at_mut(sizes.places());
    let mut at = Regions::new(sizes, near, index);
    let mut saved = SavedFit::new(sizes, work);
    let standing = making::make_direction(job, &mut at, &mut saved, column_aim(call))?;
    let made = StandingFit {
        job,
        at: &at,
        standing,
    };
    Ok(hand_both(Placed::new(rows), Placed::new(made), out))
}

// The rows' fit, and the columns' over it.
fn fit_rows(
    grid: Grid,
    call: SurfaceCall,
    u_params: &[f64],
    v_params: &[f64],
    out: &mut GridOutput,
    work: &mut [f64],
    index: &mut [usize],
) -> Result<GridFit, Refusal>
    requires params { HasParams call grid (length u_params.now) (length v_params.now) }
    requires room { HasGridOutput grid.shape out.old × RowsRoom grid.shape (length work.old) (length index.old) }
    ensures hands { HandsOutGrid grid.entry.shape (fit_grid_by call (grid_in grid.entry) u_params.now v_params.now) (grid_lent_with out.old [] []) (grid_lent_with out.new [] []) result }
    ensures same { SameGridOutput out.old out.new }
{
    let job = rows_job(grid, v_params);
    let sizes = job.sizes();
    let (near, work) = work.split_at_mut(sizes.places());
    let (put_by, work) = work.split_at_mut(saved_places(sizes));
    let (firsts, index) = index.split_at_mut(grid.shape.cols);
    let mut at = Regions::new(sizes, near, firsts);
    let mut saved = SavedFit::new(sizes, put_by);
    let standing = making::make_direction(job, &mut at, &mut saved, row_aim(call))?;
    fill_table(job, &mut at);
    let rows = StandingFit {
        job,
        at: &at,
        standing,
    };
    fit_columns(grid, call, rows, u_params, out, work, index)
}

// The call on a grid that passed the checks up to 10: 5, then 3 and 4, then the fits.
pub fn fit_passed(
    grid: Grid,
    call: SurfaceCall,
    out: &mut GridOutput,
    work: &mut [f64],
    index: &mut [usize],
) -> Result<GridFit, Refusal>
    requires shaped { GridShaped (length grid.points.now) grid.shape }
    requires roomy { GridRoomy grid.shape (grid_room_of (grid_lent_with out.old work.old index.old)) }
    ensures hands { HandsOutGrid grid.entry.shape (grid_fit call (grid_in grid.entry)) (grid_lent_with out.old [] []) (grid_lent_with out.new [] []) result }
    ensures same { SameGridOutput out.old out.new }
{
    shared_parameters(columns_of(grid), grid.metric, work)?;
    let (u_params, work) = work.split_at_mut(grid.shape.rows);
    shared_parameters(rows_of(grid), grid.metric, work)?;
    check_counts(call, grid.shape)?;
    let (v_params, work) = work.split_at_mut(grid.shape.cols);
    fit_rows(grid, call, u_params, v_params, out, work, index)
}
