// Grid fits: document 01, part 4.
#![tactic(auto)]

pub mod aims;
pub mod fits;
pub mod output;

use fitting::Fit;

// One mark and one set of counts for u, and one for v.
#[derive(Clone, Copy)]
pub struct GridFit {
    pub u: Fit,
    pub v: Fit,
}
