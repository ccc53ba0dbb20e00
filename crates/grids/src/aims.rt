// What each direction of a grid is fitted to.
ghost use Rattle.std.specs.Prelude.{◌≡◌};
ghost use Rattle.grids.specs.Grids.{row_aim, column_aim};

use checks::{Aim, SurfaceCall};

// What the rows are fitted to along v.
#[tactic(auto, unfolding(crate::specs::Grids::row_aim))]
pub fn row_aim(call: SurfaceCall) -> Aim
    ensures { result ≡ row_aim call }
{
    match call {
        SurfaceCall::Approximate(_, count) => Aim::Count(count),
        SurfaceCall::ApproximateWithin(tolerance) => Aim::Within(0.8 * tolerance),
    }
}

// What the columns are fitted to along u.
#[tactic(auto, unfolding(crate::specs::Grids::column_aim))]
pub fn column_aim(call: SurfaceCall) -> Aim
    ensures { result ≡ column_aim call }
{
    match call {
        SurfaceCall::Approximate(count, _) => Aim::Count(count),
        SurfaceCall::ApproximateWithin(tolerance) => Aim::Within(tolerance),
    }
}
