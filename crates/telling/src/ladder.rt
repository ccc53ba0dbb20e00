// The ladder calls.
ghost use Rattle.std.specs.Prelude.{◌≡◌, ◌≤◌, length};
ghost use Rattle.bspline.specs.Reader.{number_in};
ghost use Rattle.checks.specs.Slices.{lent_with, SameOutput};
ghost use Rattle.ladders.specs.Ladders.{result_of};
ghost use Rattle.telling.specs.Told.{told_largest, told_counts, nothing, Told};

use bspline::Refusal;
use checks::given::Ladder;
use checks::ladder::check_ladder;
use checks::slices::Output;
use checks::{Call, Room};
use fitting::Fit;

// The number of an answer, with the mark and the counts of a fit in the lent slices.
fn tell(answer: Result<Fit, Refusal>, largest: &mut [f64], counts: &mut [usize]) -> u32
    requires { (1 ≤ length largest.old) × (4 ≤ length counts.old) }
    ensures value { result ≡ number_in answer }
    ensures largest_after { largest.new ≡ told_largest answer largest.old }
    ensures counts_after { counts.new ≡ told_counts answer counts.old }
{
    match answer {
        Err(c) => c.number(),
        Ok(f) => {
            super::tell_fit(f, largest, 0, counts, 0);
            0
        }
    }
}

// The number of a call that has no room for its answer.
#[tactic(auto, using(crate::proofs::ToldLaws::refusing))]
fn without_room(ladder: Ladder, call: Call) -> u32
    ensures { result ≡ number_in (result_of call ladder.entry.points.now ladder.entry.degree ladder.entry.metric nothing) }
{
    match check_ladder(ladder, call, Room::default()) {
        Err(c) => c.number(),
        Ok(()) => Refusal::BufferTooShort.number(),
    }
}

// A ladder call with its answer told; where there is no room for that, it is judged as one with nothing lent.
#[tactic(auto, using(crate::proofs::ToldLaws::telling))]
pub fn call_ladder(
    ladder: Ladder,
    call: Call,
    out: &mut Output,
    work: &mut [f64],
    index: &mut [usize],
    largest: &mut [f64],
    counts: &mut [usize],
) -> u32
    ensures told { Told call ladder.entry.points.now ladder.entry.degree ladder.entry.metric (lent_with out.old work.old index.old) (lent_with out.new work.new index.new) largest.old largest.new counts.old counts.new result }
    ensures same { SameOutput out.old out.new }
{
    if largest.len() < 1 || counts.len() < 4 {
        return without_room(ladder, call);
    }
    let answer = ladders::fit_ladder(ladder, call, out, work, index);
    tell(answer, largest, counts)
}
