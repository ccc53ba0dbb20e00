// The ladder calls (document 01, part 3: `interpolate`, `approximate`, `approximate_within`, the spread search alone): their checks, then the fit, then work and index cleared.
// Each call has its own promise, and hands on to `fit_ladder`.
#![tactic(auto)]

ghost use Rattle.std.specs.Prelude.{◌≡◌, ◌/◌, ◌<◌, [], length};
ghost use Rattle.bspline.specs.Refusals.{pass};
ghost use Rattle.knots.specs.OnLines.{on_lines};
ghost use Rattle.tables.specs.Directions.{ladder as ladder_direction, ladder_point};
ghost use Rattle.checks.specs.LadderChecks.{Roomy, Shaped, room_of, count_verdict};
ghost use Rattle.checks.specs.Slices.{lent_with, SameOutput};
ghost use Rattle.fitting.specs.Jobs.{direction_of, sizes_of};
ghost use Rattle.making.specs.Results.{fit_by};
ghost use Rattle.ladders.specs.Ladders.{ladder_fit, HandsOut, LadderCall, Interpolates, Approximates, ApproximatesWithin, SearchesSpread};
ghost use Rattle.ladders.specs.Standing.{HasOutput, HasRoom, HandsStanding, Passed};

use bspline::Refusal;
use checks::Call;
use checks::given::Ladder;
use checks::ladder::check_ladder;
use checks::slices::Output;
use fitting::room::Regions;
use fitting::{Fit, Job, Kind};
use knots::lines::Lines;
use knots::parameters::point_parameters;
use making::StandingFit;

// A fit that stands, handed out.
fn hand_standing(x: StandingFit, out: &mut Output) -> Fit
    requires one { x.job.lines.lines ≡ 1 }
    requires room { HasOutput (length x.job.params.now) x.job.degree out.old }
    ensures { HandsStanding x.entry out.old out.new result }
{
    let at = x.at;
    let l = at.knots.count;
    let m = l - x.job.degree - 1;
    let poles = &at.fit.poles[..3 * m];
    let flat = &at.knots.places[..l];
    Fit {
        mark: x.standing.mark,
        poles: m,
        knots: making::output::hand_out(poles, flat, out),
        unreadable: x.standing.unreadable,
    }
}

// A ladder's points, as one line. That it passed its checks is asked: it is the caller's own value, and no type says so.
fn line_of(ladder: Ladder) -> Lines
    requires { Shaped (length ladder.points.now) ladder.degree }
    ensures points { (on_lines result ≡ ladder_point ladder.entry.points.now) × (result.points ≡ ladder.entry.points) }
    ensures counts { (result.lines ≡ 1) × (result.count ≡ length ladder.entry.points.now / 3) }
{
    Lines {
        points: ladder.points,
        lines: 1,
        pitch: 0,
        count: ladder.points.len() / 3,
        stride: 1,
    }
}

// A ladder with its parameters, as a direction to be fitted. (A grid's rows and columns give the same struct of other parts.)
#[tactic(auto, using(crate::proofs::RunLaws::has_ladder_job, crate::proofs::RunLaws::direction_is), unfolding(fitting::specs::Solves::curve_places))]
fn job_of<'a, 'b, 'c, 'd>(ladder: Ladder<'b>, params: &'a [f64]) -> Job<'a, 'b, 'c, 'd>
    requires shaped { Shaped (length ladder.points.now) ladder.degree × (ladder.degree < length params.now) }
    requires as_many { length params.now ≡ length ladder.points.now / 3 }
    ensures direction { direction_of result ≡ ladder_direction ladder.entry.metric.factor ladder.entry.points.now ladder.entry.degree params.now }
    ensures sizes { sizes_of result ≡ record { degree = ladder.entry.degree; count = length params.now; lines = 1; curve = 0 } }
{
    Job {
        degree: ladder.degree,
        factor: ladder.metric.factor,
        params,
        lines: line_of(ladder),
        kind: Kind::Ladder,
    }
}

// The call on a ladder with its parameters, handed out.
#[tactic(auto, using(checks::proofs::CheckLaws::count_under))]
fn fit_params(
    ladder: Ladder,
    call: Call,
    params: &[f64],
    out: &mut Output,
    work: &mut [f64],
    index: &mut [usize],
) -> Result<Fit, Refusal>
    requires passed { Passed call ladder (length params.now) }
    requires room { HasOutput (length params.now) ladder.degree out.old × HasRoom ladder.degree (length params.now) (length work.old) (length index.old) }
    ensures hands { HandsOut ladder.entry.degree (fit_by call (ladder_direction ladder.entry.metric.factor ladder.entry.points.now ladder.entry.degree params.now))
        (lent_with out.old [] []) (lent_with out.new [] []) result }
    ensures same { SameOutput out.old out.new }
{
    let job = job_of(ladder, params);
    let mut at = Regions::new(job.sizes(), work, index);
    let standing = making::make(job, &mut at, call)?;
    let made = StandingFit {
        job,
        at: &at,
        standing,
    };
    Ok(hand_standing(made, out))
}

// The call on a ladder that passed the checks, or 5.
#[tactic(auto, unfolding(fitting::specs::Room::places_of))]
fn fit_passed(
    ladder: Ladder,
    call: Call,
    out: &mut Output,
    work: &mut [f64],
    index: &mut [usize],
) -> Result<Fit, Refusal>
    requires shaped { Shaped (length ladder.points.now) ladder.degree × (count_verdict call (length ladder.points.now / 3) ladder.degree ≡ pass) }
    requires roomy { Roomy (length ladder.points.now / 3) ladder.degree (room_of (lent_with out.old work.old index.old)) }
    ensures hands { HandsOut ladder.entry.degree (ladder_fit ladder.entry.metric ladder.entry.points.now ladder.entry.degree (fit_by call))
        (lent_with out.old [] []) (lent_with out.new [] []) result }
    ensures same { SameOutput out.old out.new }
{
    let (params, work) = work.split_at_mut(ladder.points.len() / 3);
    point_parameters(line_of(ladder).line(0), ladder.metric, params)?;
    fit_params(ladder, call, params, out, work, index)
}

// Any of the calls.
pub fn fit_ladder(
    ladder: Ladder,
    call: Call,
    out: &mut Output,
    work: &mut [f64],
    index: &mut [usize],
) -> Result<Fit, Refusal>
    ensures call { LadderCall call ladder.entry.points.now ladder.entry.degree ladder.entry.metric
        (lent_with out.old work.old index.old) (lent_with out.new work.new index.new) result }
    ensures same { SameOutput out.old out.new }
{
    check_ladder(ladder, call, out.room(work, index))?;
    let answer = fit_passed(ladder, call, out, work, index);
    work.fill(0.0);
    index.fill(0);
    answer
}

// `interpolate`: the curve through the points, with as many poles.
pub fn interpolate(
    ladder: Ladder,
    out: &mut Output,
    work: &mut [f64],
    index: &mut [usize],
) -> Result<Fit, Refusal>
    ensures call { Interpolates ladder.entry.points.now ladder.entry.degree ladder.entry.metric
        (lent_with out.old work.old index.old) (lent_with out.new work.new index.new) result }
    ensures same { SameOutput out.old out.new }
{
    fit_ladder(ladder, Call::Interpolate, out, work, index)
}

// `approximate`: least squares with a chosen pole count.
pub fn approximate(
    ladder: Ladder,
    count: usize,
    out: &mut Output,
    work: &mut [f64],
    index: &mut [usize],
) -> Result<Fit, Refusal>
    ensures call { Approximates ladder.entry.points.now ladder.entry.degree count ladder.entry.metric
        (lent_with out.old work.old index.old) (lent_with out.new work.new index.new) result }
    ensures same { SameOutput out.old out.new }
{
    fit_ladder(ladder, Call::Approximate(count), out, work, index)
}

// `approximate_within`: refinement, else the spread search, else the curve through the points.
pub fn approximate_within(
    ladder: Ladder,
    tolerance: f64,
    out: &mut Output,
    work: &mut [f64],
    index: &mut [usize],
) -> Result<Fit, Refusal>
    ensures call { ApproximatesWithin ladder.entry.points.now ladder.entry.degree tolerance ladder.entry.metric
        (lent_with out.old work.old index.old) (lent_with out.new work.new index.new) result }
    ensures same { SameOutput out.old out.new }
{
    fit_ladder(ladder, Call::ApproximateWithin(tolerance), out, work, index)
}

// The spread search alone, else the curve through the points.
pub fn search_spread(
    ladder: Ladder,
    tolerance: f64,
    out: &mut Output,
    work: &mut [f64],
    index: &mut [usize],
) -> Result<Fit, Refusal>
    ensures call { SearchesSpread ladder.entry.points.now ladder.entry.degree tolerance ladder.entry.metric
        (lent_with out.old work.old index.old) (lent_with out.new work.new index.new) result }
    ensures same { SameOutput out.old out.new }
{
    fit_ladder(ladder, Call::SearchSpread(tolerance), out, work, index)
}
