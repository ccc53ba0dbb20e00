// The search for the fewest poles: doubling steps up from the degree, then halving. The search is a value: `next` says which count to try, and
// `fitted` or `failed` takes what came of it.
#![tactic(auto)]

ghost use Rattle.std.specs.Prelude.{◌≡◌};
ghost use Rattle.search.specs.Search.{start, next_of, fitted_at, failed_at, answer};
ghost use Rattle.search.specs.Bounds.{Bounded};

// The pole-count search: `low` fails or is the degree; `high` passes or is the count that the caller falls back on, which is never tried.
#[derive(Clone, Copy)]
pub struct Search {
    pub low: usize,
    pub high: usize,
    pub step: usize,
}

impl Search {
    pub fn new(degree: usize, last: usize) -> Search
        ensures { result ≡ start degree last }
    {
        Search {
            low: degree,
            high: last,
            step: 1,
        }
    }

    // The next pole count to try; none where the search is over.
    pub fn next(self) -> Option<usize>
        requires { Bounded self }
        ensures { result ≡ next_of self }
    {
        let width = self.high - self.low;
        if width <= 1 {
            None
        } else if self.step < width {
            Some(self.low + self.step)
        } else {
            Some(self.low + width / 2)
        }
    }

    // After a count that passes.
    pub fn fitted(self, count: usize) -> Search
        ensures { result ≡ fitted_at self count }
    {
        Search {
            high: count,
            ..self
        }
    }

    // After a count that fails.
    pub fn failed(self, count: usize) -> Search
        requires { Bounded self }
        ensures { result ≡ failed_at self count }
    {
        let step = if self.step < self.high - self.low {
            self.step * 2
        } else {
            self.step
        };
        Search {
            low: count,
            step,
            ..self
        }
    }

    // The pole count that the search ended with, once there is nothing to try; none where no count below `last` passed.
    pub fn found(self, last: usize) -> Option<usize>
        ensures { result ≡ answer last self }
    {
        (self.high < last).then_some(self.high)
    }
}
