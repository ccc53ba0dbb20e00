// The text of an answer or of a refusal, put into a lent slice of bytes: document 01's output.
#![tactic(auto)]

mod text;

ghost use Rattle.std.specs.Prelude.{◌≡◌, true, ◌≤◌, length};
ghost use Rattle.io.specs.Counts.{IsPrefixLen};
ghost use Rattle.card_printer.specs.Answer.{Put, curve_text, refusal_text, is_printable, PrintedAs};

use fitting::Mark;
use text::Text;

// The most knots, and places of poles, that a curve of 64 points of degree 25 has.
pub const KNOTS: usize = 90;

pub const POLES: usize = 192;

// The places that have room for the text of each such curve, and of each refusal.
pub const ROOM: usize = 8192;

pub const REFUSAL_ROOM: usize = 29;

// What is printed of a curve: its mark and unreadable count, its distinct knots with their multiplicities, and its poles. A curve that is read (`bspline::curve::Curve`) has a degree
// and neither mark nor count.
#[derive(Clone, Copy)]
pub struct Curve<'a> {
    pub mark: Mark,
    pub unreadable: usize,
    pub knots: &'a [f64],
    pub mults: &'a [u32],
    pub poles: &'a [f64],
}

impl Curve<'_> {
    // Whether there is a multiplicity for each knot, and no more knots and poles than 64 points of degree 25 have.
    fn is_printable(&self) -> bool
        ensures { result ≡ is_printable self.now }
    {
        self.knots.len() == self.mults.len()
            && self.knots.len() <= KNOTS
            && self.poles.len() <= POLES
    }
}

// The text of an answer, at the front of out. Answers how long it is.
pub fn put_answer(curve: &Curve, out: &mut [u8]) -> usize
    requires printable { is_printable curve.now ≡ true }
    requires room { ROOM ≤ length out.old }
    ensures put { Put out.old out.new 0 result (curve_text curve.now) }
    ensures prefix { IsPrefixLen result out.new }
{
    let mut text = Text { out, at: 0 };
    text.put_curve(curve);
    text.at
}

// The text of a refusal, at the front of out. Answers how long it is.
pub fn put_refusal(number: u32, out: &mut [u8]) -> usize
    requires { REFUSAL_ROOM ≤ length out.old }
    ensures put { Put out.old out.new 0 result (refusal_text number) }
    ensures prefix { IsPrefixLen result out.new }
{
    let mut text = Text { out, at: 0 };
    text.put_refusal(number);
    text.at
}

// Prints an answer into a slice of any length: how long its text is, or nothing where there is no room for it, or this is no curve of 64 points.
pub fn print_answer(curve: &Curve, out: &mut [u8]) -> Option<usize>
    ensures { PrintedAs (is_printable curve.now) ROOM out.old out.new (curve_text curve.now) result }
{
    if !curve.is_printable() || out.len() < ROOM {
        return None;
    }
    Some(put_answer(curve, out))
}

// Prints a refusal into a slice of any length.
pub fn print_refusal(number: u32, out: &mut [u8]) -> Option<usize>
    ensures { PrintedAs true REFUSAL_ROOM out.old out.new (refusal_text number) result }
{
    if out.len() < REFUSAL_ROOM {
        return None;
    }
    Some(put_refusal(number, out))
}
