// What is lent to a call for what it hands out: a fit's poles, its flat knots, and its distinct knots with their multiplicities. Work and index go beside it, and a
// grid's knots along u and v are no structs in it: a struct in a struct of lent slices needs a lifetime for each, six for a ladder and nine for a grid.
use crate::{GridRoom, Room};

// For a ladder call.
#[derive(Drop)]
pub struct Output<'a> {
    pub poles: &'a mut [f64],
    pub flat: &'a mut [f64],
    pub knots: &'a mut [f64],
    pub mults: &'a mut [u32],
}

// For a grid call: the knots along u and along v.
#[derive(Drop)]
pub struct GridOutput<'a> {
    pub poles: &'a mut [f64],
    pub uflat: &'a mut [f64],
    pub uknots: &'a mut [f64],
    pub umults: &'a mut [u32],
    pub vflat: &'a mut [f64],
    pub vknots: &'a mut [f64],
    pub vmults: &'a mut [u32],
}

impl Output<'_> {
    ghost use Rattle.std.specs.Prelude.{◌≡◌, length};
    ghost use Rattle.checks.specs.LadderChecks.{room_of};
    ghost use Rattle.checks.specs.Slices.{lent_with};

    // Their lengths, with those of a work and an index.
    pub fn room(&self, work: &[f64], index: &[usize]) -> Room
        ensures { result ≡ room_of (lent_with self.now work.now index.now) }
    {
        Room {
            poles: self.poles.len(),
            flat: self.flat.len(),
            knots: self.knots.len(),
            mults: self.mults.len(),
            work: work.len(),
            index: index.len(),
        }
    }
}

impl GridOutput<'_> {
    ghost use Rattle.std.specs.Prelude.{◌≡◌};
    ghost use Rattle.checks.specs.GridChecks.{grid_room_of};
    ghost use Rattle.checks.specs.Slices.{grid_lent_with};

    // Their lengths, with those of a work and an index.
    pub fn room(&self, work: &[f64], index: &[usize]) -> GridRoom
        ensures { result ≡ grid_room_of (grid_lent_with self.now work.now index.now) }
    {
        GridRoom {
            poles: self.poles.len(),
            uflat: self.uflat.len(),
            uknots: self.uknots.len(),
            umults: self.umults.len(),
            vflat: self.vflat.len(),
            vknots: self.vknots.len(),
            vmults: self.vmults.len(),
            work: work.len(),
            index: index.len(),
        }
    }
}
