// An archived curve, and the point of it at a parameter.
ghost use Rattle.bspline.specs.Reader.{Reads};

use crate::Refusal;
use crate::reader::{curve_point, flat_knots};
use geometry::Point;

// A curve's parts: its poles, three places each, its degree, and its distinct knots with their multiplicities.
#[derive(Clone, Copy)]
pub struct Curve<'a> {
    pub poles: &'a [f64],
    pub degree: usize,
    pub knots: &'a [f64],
    pub mults: &'a [u32],
}

impl<'a> Curve<'a> {
    // The point at u, or the refusal of document 01 whose place in its order comes first.
    pub fn read(self, u: f64) -> Result<Point, Refusal>
        ensures { Reads self.entry.poles.now self.entry.degree self.entry.knots.now self.entry.mults.now u result }
    {
        self.check_sizes()?;
        self.check_knots()?;
        let count = self.poles.len() / 3 + self.degree + 1;
        // on the stack: a reading takes nothing from the heap
        let mut places = [0.0; 1050];
        flat_knots(self.knots, self.mults, &mut places);
        let flat = &places[..count];
        self.check_readable(flat, u)?;
        Ok(curve_point(flat, self.degree, self.poles, u))
    }
}
