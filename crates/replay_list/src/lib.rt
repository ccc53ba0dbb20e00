// A list of ladder calls with their answers, in words of 16 hexadecimal digits: the words, the calls, and an answer beside the list's.
#![tactic(auto)]

pub mod answers;
pub mod cases;
pub mod lines;
pub mod values;

ghost use Rattle.std.specs.Prelude.{◌<◌, ◌≤◌, length};
ghost use Rattle.replay_list.specs.declared.TheConstants.{PLACES};

use checks::Call;
use knots::Spacing;

// The most places that a case has.
pub const PLACES: usize = 3200;

// A call of the list on `count` places. The words of the first of them are given, and the others repeat the last of these. The work is `shorter` places too
// short, and the words of the answer start at `answer`.
#[derive(Clone, Copy)]
pub struct Case<'a> {
    pub call: Call,
    pub degree: usize,
    pub spacing: Spacing,
    pub count: usize,
    pub given: &'a [u64],
    pub shorter: usize,
    pub answer: usize,
    pub ghost few: { count ≤ PLACES },
    pub ghost no_more: { length given.now ≤ count },
    pub ghost some: { 0 < count → 0 < length given.now },
    pub ghost short: { shorter ≤ 1 },
}
