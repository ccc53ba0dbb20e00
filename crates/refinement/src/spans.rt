// The knot spans that hold parameters, by the parameters' first poles: where each ends, and how far its worst parameter is off.
ghost use Rattle.std.specs.Prelude.{◌≡◌, ◌+◌, ◌<◌, ◌≤◌, length};
ghost use Rattle.geometry.specs.Root.{roots_of};
ghost use Rattle.refinement.specs.Refinement.{closes, span_ends, start_of, end_of, lone, span_worsts, middle_knot};
ghost use Rattle.refinement.specs.Round.{Rising, Within, headed};

// Whether parameter k is the last of its span.
#[tactic(auto, unfolding(crate::specs::Refinement::closes))]
fn closes_span(firsts: &[usize], k: usize) -> bool
    requires { k < length firsts.now }
    ensures { result ≡ closes firsts.now k }
{
    firsts.len() <= k + 1 || firsts[k] != firsts[k + 1]
}

// The ends of the spans take the first poles' places, from the front on. How many there are. By place: what is read stands at or behind what is written.
pub fn span_ends(firsts: &mut [usize]) -> usize
    ensures count { result ≡ length (span_ends firsts.old) }
    ensures in_front { firsts.new ≡ headed (span_ends firsts.old) firsts.old }
{
    let mut s = 0;
    for k in 0..firsts.len() {
        if closes_span(firsts, k) {
            firsts[s] = k + 1;
            s += 1;
        }
    }
    s
}

// The parameters, and for each span one past the last of its own.
#[derive(Clone, Copy)]
pub struct Spans<'a> {
    pub params: &'a [f64],
    pub ends: &'a [usize],
    pub ghost rising: { Rising ends.now },
    pub ghost within: { Within (length params.now) ends.now },
}

impl<'a> Spans<'a> {
    // Where span s starts.
    #[tactic(auto, using(crate::proofs::SpanLaws::start_is))]
    pub fn start_of(self, s: usize) -> usize
        requires { s ≤ length self.ends.now }
        ensures { result ≡ start_of self.entry.ends.now s }
    {
        if s == 0 { 0 } else { self.ends[s - 1] }
    }

    // Whether span s has a lone parameter, which no knot can part.
    #[tactic(auto, unfolding(crate::specs::Refinement::lone))]
    pub fn is_lone(self, s: usize) -> bool
        requires { s < length self.ends.now }
        ensures { result ≡ lone self.entry.ends.now s }
    {
        self.ends[s] - self.start_of(s) < 2
    }

    // Halfway between the middle two parameters of span s.
    #[tactic(auto, unfolding(crate::specs::Refinement::middle_knot))]
    pub fn middle_knot(self, s: usize) -> f64
        requires { (s < length self.ends.now) × (start_of self.ends.now s + 2 ≤ end_of self.ends.now s) }
        ensures { result ≡ middle_knot self.entry.params.now self.entry.ends.now s }
    {
        let start = self.start_of(s);
        let middle = start + (self.ends[s] - start) / 2;
        0.5 * (self.params[middle - 1] + self.params[middle])
    }

    // The squares of the parameters' deviations give way, from the front on, to each span's worst deviation: the root of its largest square.
    pub fn find_worsts(self, squares: &mut [f64])
        requires { length squares.old ≡ length self.params.now }
        ensures { squares.new ≡ headed (span_worsts (roots_of squares.old) self.entry.ends.now) squares.old }
    {
        let mut start = 0;
        // by place: worst `s` is written at or before the squares of its span, in the list that they are read from
        for (s, end) in self.ends.iter().enumerate() {
            let most = geometry::doubles::largest_of(&squares[start..*end]);
            squares[s] = geometry::root::sqrt(most);
            start = *end;
        }
    }
}
