// A grid's checks up to 10, in the documents' order: 8, 2 (u, then v), 1, 6 for the length, 9, 17, 10; and 3 and 4, which come after 5. They touch no lent slice.
#![tactic(auto, unfolding(crate::specs::GridChecks::grid_shape_verdict, crate::specs::GridChecks::grid_room_verdict, crate::specs::GridChecks::grid_checks, crate::specs::GridChecks::counts_verdict))]

ghost use Rattle.std.specs.Prelude.{◌≡◌, ◌≤◌, length, OnOk};
ghost use Rattle.checks.specs.GridChecks.{work_length, index_length, grid_shape_verdict, grid_room_verdict, grid_checks, counts_verdict, GridShaped, GridRoomy};
ghost use Rattle.checks.specs.Slices.{grid_in};

use crate::given::Grid;
use crate::ladder::{check_chosen, check_coordinates, check_unchosen};
use crate::{GridRoom, Shape, SurfaceCall};
use bspline::{Refusal, check_degree, check_factor};

impl Shape {
    // The needed length of the work.
    fn work_length(self) -> usize
        requires { (self.rows ≤ 64) × (self.cols ≤ 64) × (self.u ≤ 25) × (self.v ≤ 25) }
        ensures { result ≡ work_length self }
    {
        let count = self.rows.max(self.cols);
        let degree = self.u.max(self.v);
        12 * (self.rows * self.cols) + count * (6 * degree + 24) + 128
    }

    // The needed length of the index.
    fn index_length(self) -> usize
        requires { (self.rows ≤ 64) × (self.cols ≤ 64) }
        ensures { result ≡ index_length self }
    {
        8 * self.rows.max(self.cols)
    }
}

// 8, 2, 1, 6.
fn check_shape(places: usize, shape: Shape) -> Result<(), Refusal>
    ensures verdict { result ≡ grid_shape_verdict places shape }
    ensures shaped { OnOk result (GridShaped places shape) }
{
    if 64 < shape.rows || 64 < shape.cols {
        return Err(Refusal::TooLarge);
    }
    check_degree(shape.u)?;
    check_degree(shape.v)?;
    if shape.rows < 2 || shape.cols < 2 {
        return Err(Refusal::TooFewPoints);
    }
    if places != 3 * (shape.rows * shape.cols) {
        return Err(Refusal::PoleCountMismatch);
    }
    Ok(())
}

// 9.
fn check_room(shape: Shape, room: GridRoom) -> Result<(), Refusal>
    requires { (shape.rows ≤ 64) × (shape.cols ≤ 64) × (shape.u ≤ 25) × (shape.v ≤ 25) }
    ensures verdict { result ≡ grid_room_verdict shape room }
    ensures roomy { OnOk result (GridRoomy shape room) }
{
    let uknots = shape.rows + shape.u + 1;
    let vknots = shape.cols + shape.v + 1;
    if room.poles < 3 * (shape.rows * shape.cols) {
        return Err(Refusal::BufferTooShort);
    }
    if room.uflat < uknots || room.uknots < uknots || room.umults < uknots {
        return Err(Refusal::BufferTooShort);
    }
    if room.vflat < vknots || room.vknots < vknots || room.vmults < vknots {
        return Err(Refusal::BufferTooShort);
    }
    if room.work < shape.work_length() || room.index < shape.index_length() {
        return Err(Refusal::BufferTooShort);
    }
    Ok(())
}

// All of them up to 10.
pub fn check_grid(grid: Grid, room: GridRoom) -> Result<(), Refusal>
    ensures verdict { result ≡ grid_checks (grid_in grid.entry) room }
    ensures shaped { OnOk result (GridShaped (length grid.entry.points.now) grid.entry.shape) }
    ensures roomy { OnOk result (GridRoomy grid.entry.shape room) }
{
    check_shape(grid.points.len(), grid.shape)?;
    check_room(grid.shape, room)?;
    check_factor(grid.metric.factor)?;
    check_coordinates(grid.points)
}

// 3 and 4 along u, then along v.
pub fn check_counts(call: SurfaceCall, shape: Shape) -> Result<(), Refusal>
    ensures { result ≡ counts_verdict call shape }
{
    match call {
        SurfaceCall::Approximate(ucount, vcount) => {
            check_chosen(shape.rows, shape.u, ucount)?;
            check_chosen(shape.cols, shape.v, vcount)
        }
        SurfaceCall::ApproximateWithin(_) => {
            check_unchosen(shape.rows, shape.u)?;
            check_unchosen(shape.cols, shape.v)
        }
    }
}
