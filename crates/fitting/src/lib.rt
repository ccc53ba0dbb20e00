// Fits of one direction: document 01, part 3 (least squares on given and on spread knots, refinement, the pole-count search, interpolation).
#![tactic(auto)]

pub mod attempts;
pub mod counts;
pub mod flat;
pub mod refining;
pub mod room;

ghost use Rattle.std.specs.Prelude.{◌≡◌};
ghost use Rattle.fitting.specs.Given.{HasJob};
ghost use Rattle.fitting.specs.Marks.{largest_deviation, mark_number};

use knots::lines::Lines;
use room::Sizes;
use tables::basis_table::Table;

// Which step gave the knots and poles that are handed out, with the largest computed deviation: document 01's refined, spread, interpolated and chosen.
#[derive(Clone, Copy, Debug, PartialEq)]
pub enum Mark {
    Refined(f64),
    Spread(f64),
    Interpolated(f64),
    Chosen(f64),
}

impl Mark {
    // The largest computed deviation.
    pub fn deviation(self) -> f64
        ensures { result ≡ largest_deviation self }
    {
        match self {
            Mark::Refined(x) | Mark::Spread(x) | Mark::Interpolated(x) | Mark::Chosen(x) => x,
        }
    }

    // The mark's number, for C and for lists.
    pub fn number(self) -> usize
        ensures { result ≡ mark_number self }
    {
        match self {
            Mark::Refined(_) => 1,
            Mark::Spread(_) => 2,
            Mark::Interpolated(_) => 3,
            Mark::Chosen(_) => 4,
        }
    }
}

// The mark beside the counts: poles, distinct knots, unreadable deviations.
#[derive(Clone, Copy, Debug, PartialEq)]
pub struct Fit {
    pub mark: Mark,
    pub poles: usize,
    pub knots: usize,
    pub unreadable: usize,
}

// A grid's points, and v's table: the poles of a fit of the columns make a surface over it.
#[derive(Clone, Copy)]
pub struct Surface<'a, 'b> {
    pub points: &'a [f64],
    pub across: Table<'b>,
}

// What the lines of a direction are: a ladder's points; a grid's rows, along v; or the columns of the row poles, along u, whose fits are measured against the
// grid's points.
#[derive(Clone, Copy)]
pub enum Kind<'a, 'b> {
    Ladder,
    Rows,
    Columns(Surface<'a, 'b>),
}

// A direction to be fitted: its degree, the lightness factor of its distances, its parameters, and its lines of data, with a point for each parameter.
#[derive(Clone, Copy)]
pub struct Job<'a, 'b, 'c, 'd> {
    pub degree: usize,
    pub factor: f64,
    pub params: &'a [f64],
    pub lines: Lines<'b>,
    pub kind: Kind<'c, 'd>,
    pub ghost inside: { HasJob degree params.now lines kind },
}

impl Job<'_, '_, '_, '_> {
    ghost use Rattle.std.specs.Prelude.{◌≡◌};
    ghost use Rattle.fitting.specs.Room.{SmallSizes};
    ghost use Rattle.fitting.specs.Jobs.{sizes_of};

    // How large the places are that its fits are made in: those of a curve's poles are for the columns alone.
    #[tactic(auto, unfolding(crate::specs::Solves::curve_places))]
    pub fn sizes(self) -> Sizes
        ensures sizes { result ≡ sizes_of self.entry }
        ensures small { SmallSizes result }
    {
        let curve = match self.kind {
            Kind::Ladder | Kind::Rows => 0,
            Kind::Columns(s) => 3 * s.across.poles,
        };
        Sizes {
            degree: self.degree,
            count: self.params.len(),
            lines: self.lines.lines,
            curve,
        }
    }
}
