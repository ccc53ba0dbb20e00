// Basis tables and deviations, for ladders, rows and columns: document 01, part 3 (`BasisTable`) and part 4 (`row_deviations`, `deviations`).
#![tactic(auto)]

pub mod basis_table;
pub mod deviations;
pub mod rows;

// What is made of distances: the largest, folded from 0 with NaN passed over, and how many are NaN. It is found of their squares, and a root is taken of the
// largest alone.
#[derive(Clone, Copy)]
pub struct Measured {
    pub largest: f64,
    pub unreadable: usize,
}

impl Measured {
    ghost use Rattle.std.specs.Prelude.{◌≡◌, [], ◌+◌, ◌^◌, ◌<◌};
    ghost use Rattle.tables.specs.Measures.{squares_measured, with_all, with_square, rooted};

    // No distance yet: the largest of none is 0, and none of them is unreadable.
    #[tactic(auto, using(crate::proofs::MeasureLaws::squares_none))]
    pub fn none() -> Measured
        ensures { result ≡ squares_measured [] }
    {
        Measured {
            largest: 0.0,
            unreadable: 0,
        }
    }

    // With those of another list after its own.
    #[tactic(auto, unfolding(crate::specs::Measures::with_all))]
    pub fn with_all(self, other: Measured) -> Measured
        requires { self.unreadable + other.unreadable < 2 ^ 64 }
        ensures { result ≡ with_all self other }
    {
        Measured {
            largest: geometry::doubles::max(self.largest, other.largest),
            unreadable: self.unreadable + other.unreadable,
        }
    }

    // With one square of a distance more: one that has no root is passed over by the largest, and counted.
    #[tactic(auto, using(geometry::proofs::RootOrder::root_nan), unfolding(crate::specs::Measures::with_square))]
    pub fn with_square(self, s: f64) -> Measured
        requires { self.unreadable + 1 < 2 ^ 64 }
        ensures { result ≡ with_square self s }
    {
        Measured {
            largest: geometry::doubles::max(self.largest, s),
            unreadable: if 0.0 <= s {
                self.unreadable
            } else {
                self.unreadable + 1
            },
        }
    }

    // The measures of the distances themselves.
    #[tactic(auto, unfolding(crate::specs::Measures::rooted))]
    pub fn rooted(self) -> Measured
        ensures { result ≡ rooted self }
    {
        Measured {
            largest: geometry::root::sqrt(self.largest),
            unreadable: self.unreadable,
        }
    }
}
