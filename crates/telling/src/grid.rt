// The grid calls. (A grid has other slices, checks and answers than a ladder: what is alike in ladder.rt is the shape.)
ghost use Rattle.std.specs.Prelude.{◌≡◌, ◌≤◌, length};
ghost use Rattle.bspline.specs.Reader.{number_in};
ghost use Rattle.checks.specs.Slices.{grid_in, grid_lent_with, SameGridOutput};
ghost use Rattle.grids.specs.Grids.{grid_result_number, grid_result_of};
ghost use Rattle.telling.specs.ToldGrid.{told_grid_largest, told_grid_counts, no_grid, ToldGrid};

use bspline::Refusal;
use checks::given::Grid;
use checks::grid::check_grid;
use checks::slices::GridOutput;
use checks::{GridRoom, SurfaceCall};
use grids::GridFit;

// The number of an answer, with both marks and counts of a fit in the lent slices.
fn tell_grid(answer: Result<GridFit, Refusal>, largest: &mut [f64], counts: &mut [usize]) -> u32
    requires { (2 ≤ length largest.old) × (8 ≤ length counts.old) }
    ensures value { result ≡ number_in answer }
    ensures largest_after { largest.new ≡ told_grid_largest answer largest.old }
    ensures counts_after { counts.new ≡ told_grid_counts answer counts.old }
{
    match answer {
        Err(c) => c.number(),
        Ok(f) => {
            super::tell_fit(f.u, largest, 0, counts, 0);
            super::tell_fit(f.v, largest, 1, counts, 4);
            0
        }
    }
}

// The number of a call that has no room for its answer.
#[tactic(auto, using(crate::proofs::ToldGridLaws::refusing))]
fn grid_without_room(grid: Grid, call: SurfaceCall) -> u32
    ensures { result ≡ grid_result_number (grid_result_of call (grid_in grid.entry) no_grid) }
{
    match check_grid(grid, GridRoom::default()) {
        Err(c) => c.number(),
        Ok(()) => Refusal::BufferTooShort.number(),
    }
}

// A grid call with its answer told, in the same way.
#[tactic(auto, using(crate::proofs::ToldGridLaws::telling))]
pub fn call_grid(
    grid: Grid,
    call: SurfaceCall,
    out: &mut GridOutput,
    work: &mut [f64],
    index: &mut [usize],
    largest: &mut [f64],
    counts: &mut [usize],
) -> u32
    ensures told { ToldGrid call (grid_in grid.entry) (grid_lent_with out.old work.old index.old) (grid_lent_with out.new work.new index.new) largest.old largest.new counts.old counts.new result }
    ensures same { SameGridOutput out.old out.new }
{
    if largest.len() < 2 || counts.len() < 8 {
        return grid_without_room(grid, call);
    }
    let answer = surfaces::fit_grid(grid, call, out, work, index);
    tell_grid(answer, largest, counts)
}
