// The text that is printed for a judged text and the points that were read.
ghost use Rattle.std.specs.Prelude.{◌≡◌, ◌≤◌, length};
ghost use Rattle.io.specs.Counts.{IsPrefixLen};
ghost use Rattle.card_reader.specs.Judged.{Few};
ghost use Rattle.card_printer.specs.Answer.{Put};
ghost use Rattle.card.specs.Answers.{call_of, FewIn, handed_text, ladder_text, printed};

use bspline::Refusal;
use card_printer::{Curve, KNOTS, POLES, ROOM};
use card_reader::{Card, CardError, Head, PLACES};
use checks::Call;
use checks::given::Ladder;
use checks::slices::Output;
use fitting::Fit;
use knots::Metric;

// The work and the indices of a ladder of 64 points of degree 25, on the stack as all that the program lends.
const WORK: usize = 7488;

const INDEX: usize = 256;

// `none` interpolates.
fn call_of(tolerance: Option<u64>) -> Call
    ensures { result ≡ call_of tolerance }
{
    match tolerance {
        None => Call::Interpolate,
        Some(word) => Call::ApproximateWithin(card_text::from_word(word)),
    }
}

// The text of a call's answer, whose poles, knots and multiplicities stand at the front of the slices.
#[tactic(auto, unfolding(crate::specs::Answers::handed_text))]
fn put_handed(
    answer: Result<Fit, Refusal>,
    poles: &[f64],
    knots: &[f64],
    mults: &[u32],
    out: &mut [u8],
) -> usize
    requires few { FewIn answer }
    requires poles { POLES ≤ length poles.now }
    requires knots { KNOTS ≤ length knots.now }
    requires mults { KNOTS ≤ length mults.now }
    requires room { ROOM ≤ length out.old }
    ensures put { Put out.old out.new 0 result (handed_text answer poles.now knots.now mults.now) }
    ensures prefix { IsPrefixLen result out.new }
{
    match answer {
        Err(c) => card_printer::put_refusal(c.number(), out),
        Ok(f) => {
            let curve = Curve {
                mark: f.mark,
                unreadable: f.unreadable,
                knots: &knots[..f.knots],
                mults: &mults[..f.knots],
                poles: &poles[..3 * f.poles],
            };
            card_printer::put_answer(&curve, out)
        }
    }
}

// The text of the fit of a ladder, or of its refusal.
fn fit_card(head: Head, points: &[f64], out: &mut [u8]) -> usize
    requires points { length points.now ≤ PLACES }
    requires room { ROOM ≤ length out.old }
    ensures put { Put out.old out.new 0 result (ladder_text head points.now) }
    ensures prefix { IsPrefixLen result out.new }
{
    let mut poles = [0.0; POLES];
    let mut flat = [0.0; KNOTS];
    let mut knots = [0.0; KNOTS];
    let mut mults = [0u32; KNOTS];
    let mut work = [0.0; WORK];
    let mut index = [0usize; INDEX];
    let metric = Metric {
        spacing: head.spacing,
        factor: 1.0,
    };
    let ladder = Ladder {
        points,
        degree: head.degree,
        metric,
    };
    let mut handed = Output {
        poles: &mut poles,
        flat: &mut flat,
        knots: &mut knots,
        mults: &mut mults,
    };
    let call = call_of(head.tolerance);
    let fitted = ladders::fit_ladder(ladder, call, &mut handed, &mut work, &mut index);
    put_handed(fitted, &poles, &knots, &mults, out)
}

// The text of a judged text's answer: 11, then 8, then the fit of the card's points.
pub fn answer(judgement: Result<Card, CardError>, points: &[f64], out: &mut [u8]) -> usize
    requires few { Few judgement }
    requires points { PLACES ≤ length points.now }
    requires room { ROOM ≤ length out.old }
    ensures put { Put out.old out.new 0 result (printed judgement points.now) }
    ensures prefix { IsPrefixLen result out.new }
{
    match judgement {
        Ok(card) => fit_card(card.head, &points[..3 * card.points], out),
        Err(error) => card_printer::put_refusal(error.number(), out),
    }
}
