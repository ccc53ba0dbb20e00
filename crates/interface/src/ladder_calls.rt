// The ladder calls.
ghost use Rattle.checks.specs.declared.Call.TheVariants.{Interpolate, Approximate};
ghost use Rattle.checks.specs.LadderChecks.{lent};
ghost use Rattle.knots.specs.Parameters.{metric_of};
ghost use Rattle.telling.specs.Told.{Told, ToldWithin, ToldSpread};

use checks::Call;
use checks::given::Ladder;
use checks::slices::Output;
use knots::Metric;
use telling::ladder::call_ladder;

// The curve through the points, with as many poles.
#[unsafe(no_mangle)]
pub extern "C" fn nigorzai_interpolate(
    points: &[f64],
    degree: usize,
    spacing: usize,
    factor: f64,
    poles: &mut [f64],
    flat: &mut [f64],
    knots: &mut [f64],
    mults: &mut [u32],
    work: &mut [f64],
    index: &mut [usize],
    largest: &mut [f64],
    counts: &mut [usize],
) -> u32
    ensures { Told Interpolate points.now degree (metric_of spacing factor)
        (lent poles.old flat.old knots.old mults.old work.old index.old)
        (lent poles.new flat.new knots.new mults.new work.new index.new)
        largest.old largest.new counts.old counts.new result }
{
    let call = Call::Interpolate;
    let ladder = Ladder {
        points,
        degree,
        metric: Metric::new(spacing, factor),
    };
    let mut out = Output {
        poles,
        flat,
        knots,
        mults,
    };
    call_ladder(ladder, call, &mut out, work, index, largest, counts)
}

// Least squares with a chosen pole count.
#[unsafe(no_mangle)]
pub extern "C" fn nigorzai_approximate(
    points: &[f64],
    degree: usize,
    count: usize,
    spacing: usize,
    factor: f64,
    poles: &mut [f64],
    flat: &mut [f64],
    knots: &mut [f64],
    mults: &mut [u32],
    work: &mut [f64],
    index: &mut [usize],
    largest: &mut [f64],
    counts: &mut [usize],
) -> u32
    ensures { Told (Approximate count) points.now degree (metric_of spacing factor)
        (lent poles.old flat.old knots.old mults.old work.old index.old)
        (lent poles.new flat.new knots.new mults.new work.new index.new)
        largest.old largest.new counts.old counts.new result }
{
    let call = Call::Approximate(count);
    let ladder = Ladder {
        points,
        degree,
        metric: Metric::new(spacing, factor),
    };
    let mut out = Output {
        poles,
        flat,
        knots,
        mults,
    };
    call_ladder(ladder, call, &mut out, work, index, largest, counts)
}

// Within a tolerance: by refinement, else by the spread search, else through the points.
#[unsafe(no_mangle)]
pub extern "C" fn nigorzai_approximate_within(
    points: &[f64],
    degree: usize,
    tolerance: f64,
    spacing: usize,
    factor: f64,
    poles: &mut [f64],
    flat: &mut [f64],
    knots: &mut [f64],
    mults: &mut [u32],
    work: &mut [f64],
    index: &mut [usize],
    largest: &mut [f64],
    counts: &mut [usize],
) -> u32
    ensures { ToldWithin points.now degree tolerance (metric_of spacing factor)
        (lent poles.old flat.old knots.old mults.old work.old index.old)
        (lent poles.new flat.new knots.new mults.new work.new index.new)
        largest.old largest.new counts.old counts.new result }
{
    let call = Call::ApproximateWithin(tolerance);
    let ladder = Ladder {
        points,
        degree,
        metric: Metric::new(spacing, factor),
    };
    let mut out = Output {
        poles,
        flat,
        knots,
        mults,
    };
    call_ladder(ladder, call, &mut out, work, index, largest, counts)
}

// The spread search alone, else through the points.
#[unsafe(no_mangle)]
pub extern "C" fn nigorzai_search_spread(
    points: &[f64],
    degree: usize,
    tolerance: f64,
    spacing: usize,
    factor: f64,
    poles: &mut [f64],
    flat: &mut [f64],
    knots: &mut [f64],
    mults: &mut [u32],
    work: &mut [f64],
    index: &mut [usize],
    largest: &mut [f64],
    counts: &mut [usize],
) -> u32
    ensures { ToldSpread points.now degree tolerance (metric_of spacing factor)
        (lent poles.old flat.old knots.old mults.old work.old index.old)
        (lent poles.new flat.new knots.new mults.new work.new index.new)
        largest.old largest.new counts.old counts.new result }
{
    let call = Call::SearchSpread(tolerance);
    let ladder = Ladder {
        points,
        degree,
        metric: Metric::new(spacing, factor),
    };
    let mut out = Output {
        poles,
        flat,
        knots,
        mults,
    };
    call_ladder(ladder, call, &mut out, work, index, largest, counts)
}
