// Refinement (`fit_with_refined_knots`): rounds of least squares and splitting.
ghost use Rattle.fitting.specs.Jobs.{HasRegions, RefinesWithin};

use crate::Job;
use crate::attempts::attempt;
use crate::room::Regions;
use tables::Measured;

// Refinement: from a single Bézier piece, rounds of least squares and splitting, until a fit's largest deviation is within the tolerance; none where a round
// gives no fit or splits no span.
#[tactic(auto, using(crate::proofs::RoundsLaws::rounding_start, crate::proofs::RoundsLaws::rounding_ended, crate::proofs::RoundsLaws::rounding_fits, crate::proofs::RoundsLaws::rounding_stuck))]
pub fn fit_with_refined_knots(job: Job, at: &mut Regions, tolerance: f64) -> Option<Measured>
    requires { HasRegions job at.old }
    ensures { RefinesWithin job.entry tolerance at.new result }
{
    at.knots.lay_bezier(job.degree);
    loop {
        let measured = attempt(job, at)?;
        let most = measured.largest;
        if most <= tolerance {
            return Some(measured);
        }
        at.knots.refine(
            job,
            &mut at.fit.table,
            at.squares,
            at.fresh,
            tolerance,
            most,
        )?;
    }
}
