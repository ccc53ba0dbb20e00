// The reader's checks in document 01's order: `validate_direction`'s, and those that document 01 adds.
#![tactic(auto, unfolding(crate::specs::Reader::sizes_verdict, crate::specs::Reader::knots_verdict, crate::specs::Reader::not_readable, crate::specs::Reader::too_large))]

ghost use Rattle.std.specs.Prelude.{◌≡◌, ◌+◌, ◌*◌, ◌/◌, ◌≤◌, length, sum, OnOk};
ghost use Rattle.bspline.specs.Refusals.{stop_if};
ghost use Rattle.bspline.specs.declared.Refusal.TheVariants.{NotReadable};
ghost use Rattle.bspline.specs.Spans.{NeverFalls};
ghost use Rattle.bspline.specs.Reader.{not_increasing, inner_too_large, too_large, no_multiplicity, not_finite, sizes_verdict, knots_verdict, not_readable, flat_knots, Sized, Counted};

use crate::curve::Curve;
use crate::{Refusal, check_degree};

// Whether some knot is at or below its predecessor.
fn not_increasing(knots: &[f64]) -> bool
    ensures { result ≡ not_increasing knots.now }
{
    let later = knots.iter().skip(1);
    knots.iter().zip(later).any(|(a, b)| b <= a)
}

// Whether some inner multiplicity is above the degree.
fn inner_too_large(degree: usize, mults: &[u32]) -> bool
    requires { 2 ≤ length mults.now }
    ensures { result ≡ inner_too_large degree mults.now }
{
    let last = mults.len() - 1;
    mults[1..last].iter().any(|m| degree < *m as usize)
}

// Whether an end's multiplicity is above degree + 1, or an inner one above the degree.
fn multiplicity_too_large(degree: usize, mults: &[u32]) -> bool
    requires { (degree ≤ 25) × (2 ≤ length mults.now) }
    ensures { result ≡ too_large degree mults.now }
{
    let first = mults[0] as usize;
    let last = mults[mults.len() - 1] as usize;
    degree + 1 < first || degree + 1 < last || inner_too_large(degree, mults)
}

// The multiplicities added up.
fn sum_of(mults: &[u32]) -> usize
    requires { length mults.now ≤ 1050 }
    ensures { result ≡ sum mults.now }
{
    mults.iter().map(|m| *m as usize).sum()
}

// Whether some multiplicity is 0.
fn no_multiplicity(mults: &[u32]) -> bool
    ensures { result ≡ no_multiplicity mults.now }
{
    mults.iter().any(|m| *m == 0)
}

// Whether some knot is NaN or infinite.
fn not_finite(knots: &[f64]) -> bool
    ensures { result ≡ not_finite knots.now }
{
    knots.iter().any(|x| !geometry::doubles::is_finite(*x))
}

impl<'a> Curve<'a> {
    // 7, 8, 2, 12: by the number of the poles' places, the degree, and the numbers of knots and multiplicities.
    pub(crate) fn check_sizes(self) -> Result<(), Refusal>
        ensures verdict { result ≡ sizes_verdict (length self.entry.poles.now) self.entry.degree (length self.entry.knots.now) (length self.entry.mults.now) }
        ensures sized { OnOk result (Sized (length self.entry.poles.now) self.entry.degree (length self.entry.knots.now) (length self.entry.mults.now)) }
    {
        if self.poles.len() % 3 != 0 {
            return Err(Refusal::NotTriples);
        }
        if 1024 < self.poles.len() / 3 || 1050 < self.knots.len() {
            return Err(Refusal::TooLarge);
        }
        check_degree(self.degree)?;
        if self.knots.len() < 2 || self.knots.len() != self.mults.len() {
            return Err(Refusal::TooFewKnots);
        }
        Ok(())
    }

    // 13, 14, 6. With 2 and 12 before them these are the Rust's `validate_direction`.
    pub(crate) fn check_knots(self) -> Result<(), Refusal>
        requires { Sized (length self.poles.now) self.degree (length self.knots.now) (length self.mults.now) }
        ensures verdict { result ≡ knots_verdict (length self.entry.poles.now / 3) self.entry.degree self.entry.knots.now self.entry.mults.now }
        ensures counted { OnOk result (Counted (length self.entry.poles.now / 3) self.entry.degree self.entry.knots.now self.entry.mults.now) }
    {
        if not_increasing(self.knots) {
            return Err(Refusal::KnotsNotIncreasing);
        }
        if multiplicity_too_large(self.degree, self.mults) {
            return Err(Refusal::MultiplicityTooLarge);
        }
        if sum_of(self.mults) != self.poles.len() / 3 + self.degree + 1 {
            return Err(Refusal::PoleCountMismatch);
        }
        Ok(())
    }

    // 15, with the curve's flat knots.
    pub(crate) fn check_readable(self, flat: &[f64], u: f64) -> Result<(), Refusal>
        requires sized { Sized (length self.poles.now) self.degree (length self.knots.now) (length self.mults.now) }
        requires counted { Counted (length self.poles.now / 3) self.degree self.knots.now self.mults.now }
        requires many { length flat.now ≡ length self.poles.now / 3 + self.degree + 1 }
        requires flat { flat.now ≡ flat_knots self.knots.now self.mults.now }
        ensures readable { OnOk result ((2 * self.entry.degree + 2 ≤ length flat.now) × NeverFalls flat.now) }
        ensures verdict { result ≡ stop_if (not_readable (length self.entry.poles.now / 3) self.entry.degree self.entry.knots.now self.entry.mults.now u) NotReadable }
    {
        if no_multiplicity(self.mults) || not_finite(self.knots) {
            return Err(Refusal::NotReadable);
        }
        if self.poles.len() / 3 < self.degree + 1 {
            return Err(Refusal::NotReadable);
        }
        if flat[flat.len() - 1 - self.degree] <= flat[self.degree] || u.is_nan() {
            return Err(Refusal::NotReadable);
        }
        Ok(())
    }
}
