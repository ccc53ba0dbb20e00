// Pole counts on spread knots: document 01's test of a count, and the search for the fewest poles that pass it.
ghost use Rattle.std.specs.Prelude.{◌≡◌, ◌≤◌, ◌<◌, length};
ghost use Rattle.fitting.specs.Jobs.{HasRegions, Tested, FewestFound, SpreadsBelow};

use crate::attempts::attempt_spread;
use crate::room::Regions;
use crate::{Job, Kind};
use search::Search;
use tables::Measured;

// Document 01's test of a pole count on spread knots. A ladder's distances are all at most the tolerance where none is NaN and the largest is.
// It answers yes or no, which is all that the search is told: an Option of nothing would be asked for the same.
#[tactic(auto, using(crate::proofs::CountLaws::tested_unfitted, crate::proofs::CountLaws::tested_unread, crate::proofs::CountLaws::tested_ladder, crate::proofs::CountLaws::tested_grid))]
pub fn passes(job: Job, at: &mut Regions, tolerance: f64, m: usize) -> bool
    requires { HasRegions job at.old × (job.degree < m) × (m ≤ length job.params.now) }
    ensures tested { Tested job.entry tolerance m at.new result }
    ensures fresh_stays { at.new.fresh.now ≡ at.old.fresh.now }
{
    let Some(x) = attempt_spread(job, at, m) else {
        return false;
    };
    let readable = match job.kind {
        Kind::Ladder => x.unreadable == 0,
        Kind::Rows | Kind::Columns(_) => true,
    };
    readable && x.largest <= tolerance
}

// The fewest poles that the search finds below `last`.
#[tactic(auto, using(crate::proofs::CountLaws::searching_start, crate::proofs::CountLaws::searching_bounded, crate::proofs::CountLaws::searching_count))]
pub fn fit_with_fewest_poles(
    job: Job,
    at: &mut Regions,
    tolerance: f64,
    last: usize,
) -> Option<usize>
    requires { HasRegions job at.old × (job.degree < last) × (last ≤ length job.params.now) }
    ensures found { FewestFound job.entry tolerance last at.new result }
    ensures fresh_stays { at.new.fresh.now ≡ at.old.fresh.now }
{
    // no iterator: what comes next follows from what the last try is told to have come to (document 01: each try takes the search state and hands the next one back)
    let mut s = Search::new(job.degree, last);
    while let Some(m) = s.next() {
        s = if passes(job, at, tolerance, m) {
            s.fitted(m)
        } else {
            s.failed(m)
        };
    }
    s.found(last)
}

// The fit on spread knots with the poles that the search finds below `last`. The search's tries stand in the same places, so its fit is made once more.
#[tactic(auto, using(crate::proofs::CountLaws::spread_none, crate::proofs::CountLaws::found_between, crate::proofs::CountLaws::spread_unfitted, crate::proofs::CountLaws::spread_fit))]
pub fn fit_on_spread_knots(
    job: Job,
    at: &mut Regions,
    tolerance: f64,
    last: usize,
) -> Option<Measured>
    requires { HasRegions job at.old × (job.degree < last) × (last ≤ length job.params.now) }
    ensures { SpreadsBelow job.entry tolerance last at.new result }
{
    let m = fit_with_fewest_poles(job, at, tolerance, last)?;
    attempt_spread(job, at, m)
}
