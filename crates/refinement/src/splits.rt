// Which spans split, and the knots that split them.
ghost use Rattle.std.specs.Prelude.{◌≡◌, ◌<◌, ◌≤◌, length};
ghost use Rattle.places.specs.Places.{count_below};
ghost use Rattle.refinement.specs.Refinement.{misses, lone_misses, lone_before, splits, threshold_of, knots_at};

use crate::spans::Spans;

// The spans with the worst deviation of each, and what those are held against.
#[derive(Clone, Copy)]
pub struct Splitting<'a> {
    pub spans: Spans<'a>,
    pub worsts: &'a [f64],
    pub tolerance: f64,
    pub threshold: f64,
    pub ghost measured: { length spans.ends.now ≤ length worsts.now },
}

impl<'a> Splitting<'a> {
    // Whether a deviation is beyond the tolerance, and not below the threshold.
    #[tactic(auto, unfolding(crate::specs::Refinement::misses))]
    fn misses(self, d: f64) -> bool
        ensures { result ≡ misses self.entry.tolerance self.entry.threshold d }
    {
        d > self.tolerance && d >= self.threshold
    }

    // Whether t is a span with a lone parameter, which misses.
    #[tactic(auto, unfolding(crate::specs::Refinement::lone_misses))]
    fn lone_misses(self, t: usize) -> bool
        ensures { result ≡ lone_misses self.entry.spans.ends.now self.entry.worsts.now self.entry.tolerance self.entry.threshold t }
    {
        t < self.spans.ends.len() && self.spans.is_lone(t) && self.misses(self.worsts[t])
    }

    // Whether the span before s is one.
    #[tactic(auto, using(crate::proofs::SplitLaws::before_is))]
    fn lone_before(self, s: usize) -> bool
        ensures { result ≡ lone_before self.entry.spans.ends.now self.entry.worsts.now self.entry.tolerance self.entry.threshold s }
    {
        0 < s && self.lone_misses(s - 1)
    }

    // Whether span s splits.
    #[tactic(auto, unfolding(crate::specs::Refinement::splits))]
    fn splits(self, s: usize) -> bool
        requires { s < length self.spans.ends.now }
        ensures { result ≡ splits self.entry.spans.ends.now self.entry.worsts.now self.entry.tolerance self.entry.threshold s }
    {
        !self.spans.is_lone(s)
            && (self.misses(self.worsts[s]) || self.lone_before(s) || self.lone_misses(s + 1))
    }

    // How many spans split.
    pub fn count(self) -> usize
        ensures { result ≡ count_below (length self.entry.spans.ends.now) (splits self.entry.spans.ends.now self.entry.worsts.now self.entry.tolerance self.entry.threshold) }
    {
        (0..self.spans.ends.len())
            .filter(|s| self.splits(*s))
            .count()
    }

    // The knots of the spans that split. Spans go by their numbers: whether one splits depends on its neighbours.
    pub fn lay_knots(self, fresh: &mut [f64])
        requires { length fresh.old ≡ count_below (length self.spans.ends.now) (splits self.spans.ends.now self.worsts.now self.tolerance self.threshold) }
        ensures { fresh.new ≡ knots_at self.entry.spans.params.now self.entry.spans.ends.now self.entry.worsts.now self.entry.tolerance self.entry.threshold }
    {
        let splitting = (0..self.spans.ends.len()).filter(|s| self.splits(*s));
        // places by number: after `iter_mut().zip(..)` what the list holds is not known
        for (at, s) in splitting.enumerate() {
            fresh[at] = self.spans.middle_knot(s);
        }
    }
}

// Halfway between the tolerance and the largest deviation; the tolerance, where no span splits at that.
#[tactic(auto, unfolding(crate::specs::Refinement::threshold_of))]
pub fn threshold_of(spans: Spans, worsts: &[f64], tolerance: f64, most: f64) -> f64
    requires { length spans.ends.now ≤ length worsts.now }
    ensures { result ≡ threshold_of spans.entry.ends.now worsts.now tolerance most }
{
    let half = 0.5 * (tolerance + most);
    let halfway = Splitting {
        spans,
        worsts,
        tolerance,
        threshold: half,
    };
    if halfway.count() == 0 {
        tolerance
    } else {
        half
    }
}
