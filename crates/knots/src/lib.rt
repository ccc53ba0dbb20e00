// Parameters and knots: document 01, part 3 (`point_parameters`, `shared_parameters`, `averaged_knots`, `approximation_knots`, `compress_knots`).
#![tactic(auto)]

pub mod clamped;
pub mod lines;
pub mod parameters;
pub mod runs;

ghost use Rattle.std.specs.Prelude.{◌≡◌};
ghost use Rattle.knots.specs.Parameters.{spacing_of, metric_of};

// How a point gets its parameter: by chord lengths, or by their square roots.
#[derive(Clone, Copy, Debug, PartialEq, Eq)]
pub enum Spacing {
    Chordal,
    Centripetal,
}

// How a call measures: the spacing, and the lightness factor of its distances.
#[derive(Clone, Copy, Debug, PartialEq)]
pub struct Metric {
    pub spacing: Spacing,
    pub factor: f64,
}

// The spacing of a number: 0 is chordal, any other centripetal.
impl From<usize> for Spacing {
    ghost from_gives = { λ number s. s ≡ spacing_of number };

    fn from(number: usize) -> Self {
        if number == 0 {
            Spacing::Chordal
        } else {
            Spacing::Centripetal
        }
    }
}

impl Metric {
    // The spacing of a number, with a lightness factor.
    pub fn new(number: usize, factor: f64) -> Self
        ensures { result ≡ metric_of number factor }
    {
        Metric {
            spacing: Spacing::from(number),
            factor,
        }
    }
}
