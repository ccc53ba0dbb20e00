// Runs the calls of the list and counts the answers that differ.
ghost use Rattle.std.specs.Prelude.{◌≡◌, ◌≤◌, take, get_or};
ghost use Rattle.replay_list.specs.Listed.{listed_at};
ghost use Rattle.replay.specs.Runs.{compared, capped, needed, Fits, RanOn, TurnAt, TalliedAs};

use bspline::Refusal;
use checks::Room;
use checks::given::Ladder;
use checks::slices::Output;
use fitting::Fit;
use knots::Metric;
use replay_list::answers::Handed;
use replay_list::{Case, PLACES};

// The most points of a case, and the degree above which none asks for more.
const POINTS: usize = PLACES / 3;

const DEGREE: usize = 27;

// What so many points of this degree ask.
const KNOTS: usize = POINTS + DEGREE + 1;

const WORK: usize = 4 * (DEGREE * POINTS) + 16 * POINTS + 64;

const INDEX: usize = 4 * POINTS;

// A case's places, and what is lent to the calls.
#[derive(Drop)]
struct Buffers {
    points: [f64; PLACES],
    poles: [f64; PLACES],
    flat: [f64; KNOTS],
    knots: [f64; KNOTS],
    mults: [u32; KNOTS],
    work: [f64; WORK],
    index: [usize; INDEX],
}

// One case: whether the answers are the same, and the place of the next case, which stands there whether they are or not.
#[derive(Clone, Copy)]
pub struct Turn {
    pub same: bool,
    pub next: usize,
}

// The whole list: how many cases, how many of them differ, and the number of the first that does.
#[derive(Clone, Copy)]
pub struct Tally {
    pub cases: u64,
    pub different: u64,
    pub first: Option<u64>,
}

// The lengths of the slices lent for n points.
fn lengths(n: usize, degree: usize, shorter: usize) -> Room
    requires small { n ≤ POINTS }
    requires short { shorter ≤ 1 }
    ensures value { result ≡ needed n (capped degree) shorter }
    ensures fits { Fits result }
{
    let p = degree.min(DEGREE);
    let flat = n + p + 1;
    Room {
        poles: 3 * n,
        flat,
        knots: flat,
        mults: flat,
        work: 4 * (p * n) + 16 * n + 64 - shorter,
        index: 4 * n,
    }
}

// A case's answer beside the list's.
#[tactic(auto, unfolding(crate::specs::Runs::compared))]
fn compare(words: &[u64], case: Case, answer: Result<Fit, Refusal>, handed: Handed) -> Option<Turn>
    ensures { result ≡ compared answer words.now case.entry.answer case.entry.degree handed.entry.poles.now handed.entry.flat.now handed.entry.knots.now handed.entry.mults.now
        (listed_at words.now case.entry.answer case.entry.degree) }
{
    let turn = match replay_list::answers::listed_at(words, case.answer, case.degree)? {
        Ok(fit) => Turn {
            same: replay_list::answers::same_fit(answer, words, fit, handed),
            next: fit.next,
        },
        Err(number) => Turn {
            same: replay_list::answers::refused_with(answer, number),
            next: case.answer + 1,
        },
    };
    Some(turn)
}

// Runs a case whose places are laid, with as much lent as it asks, and compares the answer.
fn run_case(words: &[u64], case: Case, buffers: &mut Buffers) -> Option<Turn>
    ensures { RanOn words.now case.entry (take case.entry.count buffers.old.points) result }
{
    let room = lengths(case.count / 3, case.degree, case.shorter);
    let metric = Metric {
        spacing: case.spacing,
        factor: 1.0,
    };
    let poles = &mut buffers.poles.as_mut_slice()[..room.poles];
    let flat = &mut buffers.flat.as_mut_slice()[..room.flat];
    let knots = &mut buffers.knots.as_mut_slice()[..room.knots];
    let mults = &mut buffers.mults.as_mut_slice()[..room.mults];
    let mut output = Output {
        poles,
        flat,
        knots,
        mults,
    };
    let work = &mut buffers.work.as_mut_slice()[..room.work];
    let index = &mut buffers.index.as_mut_slice()[..room.index];
    let ladder = Ladder {
        points: &buffers.points[..case.count],
        degree: case.degree,
        metric,
    };
    let answer = ladders::fit_ladder(ladder, case.call, &mut output, work, index);
    let Output {
        poles,
        flat,
        knots,
        mults,
    } = output;
    let handed = Handed {
        poles,
        flat,
        knots,
        mults,
    };
    compare(words, case, answer, handed)
}

// Runs the case whose words start at a place.
fn replay_case(words: &[u64], start: usize, buffers: &mut Buffers) -> Option<Turn>
    ensures { TurnAt words.now start result }
{
    let case = replay_list::cases::case_at(words, start)?;
    replay_list::cases::lay_places(case, &mut buffers.points);
    run_case(words, case, buffers)
}

// Runs so many cases one after the other, the first of them at place 1; after the last the words end.
fn replay_cases(words: &[u64], cases: u64, buffers: &mut Buffers) -> Option<Tally>
    ensures { TalliedAs words.now cases result }
{
    let mut start = 1;
    let mut different = 0;
    let mut first = None;
    // a case starts where the one before it ended
    for k in 0..cases {
        let turn = replay_case(words, start, buffers)?;
        start = turn.next;
        if !turn.same {
            different += 1;
            first = first.or(Some(k + 1));
        }
    }
    (start == words.len()).then_some(Tally {
        cases,
        different,
        first,
    })
}

// Runs the list of these words, unless it is damaged.
pub fn replay(words: &[u64]) -> Option<Tally>
    ensures { TalliedAs words.now (get_or words.now 0 0) result }
{
    let cases = *words.first()?;
    let mut buffers = Buffers {
        points: [0.0; PLACES],
        poles: [0.0; PLACES],
        flat: [0.0; KNOTS],
        knots: [0.0; KNOTS],
        mults: [0; KNOTS],
        work: [0.0; WORK],
        index: [0; INDEX],
    };
    replay_cases(words, cases, &mut buffers)
}
