// Knots, basis functions and the reading of a curve: document 01, part 2 (src/curve_math/bspline.rs), and the refusals of every call.
#![tactic(auto)]

pub mod basis;
pub mod checks;
pub mod curve;
pub mod reader;
pub mod spans;

ghost use Rattle.std.specs.Prelude.{◌≡◌, ◌≤◌, OnOk};
ghost use Rattle.bspline.specs.Refusals.{number_of, degree_verdict, factor_verdict};

// Why a call is refused, with the documents' number. The first six and TooFewKnots, KnotsNotIncreasing and MultiplicityTooLarge have the Rust's names; documents 01 and 02
// add the others. 11 is the card program's alone.
#[derive(Clone, Copy, Debug, PartialEq, Eq)]
pub enum Refusal {
    TooFewPoints = 1,
    InvalidDegree = 2,
    DegreeTooHigh = 3,
    TooManyPoles = 4,
    ConfusedPoints = 5,
    PoleCountMismatch = 6,
    NotTriples = 7,
    TooLarge = 8,
    BufferTooShort = 9,
    CoordinateOutOfRange = 10,
    TooFewKnots = 12,
    KnotsNotIncreasing = 13,
    MultiplicityTooLarge = 14,
    NotReadable = 15,
    InvalidTarget = 16,
    FactorOutOfRange = 17,
    WeightCountMismatch = 18,
    NonPositiveWeight = 19,
    NotConvertible = 20,
    StepsNotRising = 21,
    DifferenceTooLarge = 22,
}

impl Refusal {
    // The documents' number.
    pub fn number(self) -> u32
        ensures { result ≡ number_of self }
    {
        self as u32
    }
}

// 2: a degree that is not between 1 and 25.
#[tactic(auto, unfolding(crate::specs::Refusals::degree_verdict))]
pub fn check_degree(degree: usize) -> Result<(), Refusal>
    ensures verdict { result ≡ degree_verdict degree }
    ensures within { OnOk result ((1 ≤ degree) × (degree ≤ 25)) }
{
    if degree < 1 || 25 < degree {
        return Err(Refusal::InvalidDegree);
    }
    Ok(())
}

// 17: a lightness factor that is not between 0.25 and 4.
#[tactic(auto, unfolding(crate::specs::Refusals::factor_verdict))]
pub fn check_factor(factor: f64) -> Result<(), Refusal>
    ensures { result ≡ factor_verdict factor }
{
    if factor <= 4.0 && 0.25 <= factor {
        return Ok(());
    }
    Err(Refusal::FactorOutOfRange)
}
