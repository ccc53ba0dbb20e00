// What each call makes of a direction: a refusal, or a fit that then stands in its regions.
#![tactic(auto)]

pub mod output;
pub mod saved;

ghost use Rattle.std.specs.Prelude.{◌≡◌, ◌≤◌, ◌<◌, Ok, length};
ghost use Rattle.std.proofs.Math.Option.{some};
ghost use Rattle.bspline.specs.Refusals.{pass};
ghost use Rattle.checks.specs.declared.Call.TheVariants.{Interpolate, Approximate, ApproximateWithin, SearchSpread};
ghost use Rattle.tables.specs.Measures.{measured};
ghost use Rattle.fitting.specs.Within.{fewer_or, fit_within_fewest};
ghost use Rattle.making.specs.Results.{fit_to, fit_by};
ghost use Rattle.checks.specs.LadderChecks.{aim_verdict, count_verdict};
ghost use Rattle.fitting.specs.Jobs.{HasRegions, HasKnots, direction_of, candidate_in};
ghost use Rattle.making.specs.Runs.{Makes, StandsIn};
ghost use Rattle.making.specs.Saving.{HasSaved};

use bspline::Refusal;
use checks::{Aim, Call};
use fitting::attempts::{attempt_spread, pass_through};
use fitting::counts::fit_on_spread_knots;
use fitting::refining::fit_with_refined_knots;
use fitting::room::Regions;
use fitting::{Job, Mark};
use saved::SavedFit;
use tables::Measured;

// A fit that stands in its regions: its mark, and how many of its deviations are unreadable. Each step makes it with its own mark.
#[derive(Clone, Copy)]
pub struct Standing {
    pub mark: Mark,
    pub unreadable: usize,
}

// The same with its direction and its regions.
#[derive(Clone, Copy)]
pub struct StandingFit<'a, 'b, 'c, 'd, 'e, 'f> {
    pub job: Job<'a, 'b, 'c, 'd>,
    pub at: &'e Regions<'f>,
    pub standing: Standing,
    pub ghost regions: { HasRegions job at.now },
    pub ghost stands: { StandsIn job at.now standing },
}

// Through the points.
fn make_through(job: Job, at: &mut Regions) -> Result<Standing, Refusal>
    requires { HasRegions job at.old }
    ensures { Makes job.entry (fit_by Interpolate (direction_of job.entry)) at.new result }
{
    let m = pass_through(job, at);
    Ok(Standing {
        mark: Mark::Interpolated(m.largest),
        unreadable: m.unreadable,
    })
}

// With a chosen pole count; 6 where least squares gives none.
#[tactic(auto, using(crate::proofs::MakeLaws::chosen_unfitted))]
fn make_chosen(job: Job, at: &mut Regions, count: usize) -> Result<Standing, Refusal>
    requires { HasRegions job at.old × (job.degree < count) × (count ≤ length job.params.now) }
    ensures { Makes job.entry (fit_by (Approximate count) (direction_of job.entry)) at.new result }
{
    let m = attempt_spread(job, at, count).ok_or(Refusal::PoleCountMismatch)?;
    Ok(Standing {
        mark: Mark::Chosen(m.largest),
        unreadable: m.unreadable,
    })
}

// By the spread search, else through the points.
#[tactic(auto, using(crate::proofs::MakeLaws::spread_missed))]
fn make_spread(job: Job, at: &mut Regions, tolerance: f64) -> Result<Standing, Refusal>
    requires { HasRegions job at.old }
    ensures { Makes job.entry (fit_by (SearchSpread tolerance) (direction_of job.entry)) at.new result }
{
    match fit_on_spread_knots(job, at, tolerance, job.params.len()) {
        None => make_through(job, at),
        Some(m) => Ok(Standing {
            mark: Mark::Spread(m.largest),
            unreadable: m.unreadable,
        }),
    }
}

// By refinement, else by the spread search.
#[tactic(auto, using(crate::proofs::MakeLaws::refined_missed))]
fn make_within(job: Job, at: &mut Regions, tolerance: f64) -> Result<Standing, Refusal>
    requires { HasRegions job at.old }
    ensures { Makes job.entry (fit_by (ApproximateWithin tolerance) (direction_of job.entry)) at.new result }
{
    match fit_with_refined_knots(job, at, tolerance) {
        None => make_spread(job, at, tolerance),
        Some(m) => Ok(Standing {
            mark: Mark::Refined(m.largest),
            unreadable: m.unreadable,
        }),
    }
}

// By the spread search below the poles of the refined fit that stands in the regions; else that fit.
fn make_fewer(
    job: Job,
    at: &mut Regions,
    saved: &mut SavedFit,
    tolerance: f64,
    refined: Measured,
) -> Result<Standing, Refusal>
    requires stands { HasRegions job at.old × HasKnots job at.old.knots.count × (refined ≡ measured (candidate_in job at.old).distances) }
    requires room { HasSaved job saved.old }
    ensures { Makes job.entry (Ok (fewer_or (direction_of job.entry) tolerance (some (candidate_in job.entry at.old)))) at.new result }
{
    let below = at.knots.count - job.degree - 1;
    saved.save(at, 3 * (job.lines.lines * below));
    match fit_on_spread_knots(job, at, tolerance, below) {
        None => {
            saved.restore(at);
            Ok(Standing {
                mark: Mark::Refined(refined.largest),
                unreadable: refined.unreadable,
            })
        }
        Some(m) => Ok(Standing {
            mark: Mark::Spread(m.largest),
            unreadable: m.unreadable,
        }),
    }
}

// By refinement and then the spread search below it (`fit_within_fewest`); else by the spread search.
#[tactic(auto, using(crate::proofs::SavedLaws::fewest_missed, crate::proofs::SavedLaws::fewest_met))]
fn make_fewest(
    job: Job,
    at: &mut Regions,
    saved: &mut SavedFit,
    tolerance: f64,
) -> Result<Standing, Refusal>
    requires { HasRegions job at.old × HasSaved job saved.old }
    ensures { Makes job.entry (Ok (fit_within_fewest (direction_of job.entry) tolerance)) at.new result }
{
    match fit_with_refined_knots(job, at, tolerance) {
        None => make_spread(job, at, tolerance),
        Some(m) => make_fewer(job, at, saved, tolerance, m),
    }
}

// By what a grid's direction is fitted to. A match on the aim, as on the call below: a trait would have one instance for each of their variants.
#[tactic(auto, using(crate::proofs::MakeLaws::counts), unfolding(crate::specs::Results::fit_to, crate::specs::Results::fit_by))]
pub fn make_direction(
    job: Job,
    at: &mut Regions,
    saved: &mut SavedFit,
    aim: Aim,
) -> Result<Standing, Refusal>
    requires { HasRegions job at.old × HasSaved job saved.old × (aim_verdict aim (length job.params.now) job.degree ≡ pass) }
    ensures { Makes job.entry (fit_to aim (direction_of job.entry)) at.new result }
{
    match aim {
        Aim::Count(count) => make_chosen(job, at, count),
        Aim::Within(tolerance) => make_fewest(job, at, saved, tolerance),
    }
}

// By what the call asks for.
#[tactic(auto, using(crate::proofs::MakeLaws::counts))]
pub fn make(job: Job, at: &mut Regions, call: Call) -> Result<Standing, Refusal>
    requires { HasRegions job at.old × (count_verdict call (length job.params.now) job.degree ≡ pass) }
    ensures { Makes job.entry (fit_by call (direction_of job.entry)) at.new result }
{
    match call {
        Call::Interpolate => make_through(job, at),
        Call::Approximate(count) => make_chosen(job, at, count),
        Call::ApproximateWithin(tolerance) => make_within(job, at, tolerance),
        Call::SearchSpread(tolerance) => make_spread(job, at, tolerance),
    }
}
