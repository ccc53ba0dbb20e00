// The text of a card, read a byte at a time: it is accepted just where it is a card's, however long it is.
#![tactic(auto)]

pub mod steps;

ghost use Rattle.std.specs.Prelude.{◌≡◌, ◌≤◌, ◌<◌, length};
ghost use Rattle.geometry.specs.Points.{put_point};
ghost use Rattle.card_reader.specs.Card.{row, point_of};
ghost use Rattle.card_reader.specs.Judged.{Judged, Few, refusal_number, ReadInto};
ghost use Rattle.card_reader.specs.Reading.{begun, reached, next, Held, kept, after, kept_after, judgement_of};

use geometry::Point;
use knots::Spacing;

// The most points that a card is fitted with, and the places of their coordinates.
pub const POINTS: usize = 64;

pub const PLACES: usize = 3 * POINTS;

// What stands before a card's points. A tolerance is a word, or `none`.
#[derive(Clone, Copy)]
pub struct Head {
    pub degree: usize,
    pub spacing: Spacing,
    pub tolerance: Option<u64>,
}

// A card that is read: what stands before its points, and how many there are.
#[derive(Clone, Copy)]
pub struct Card {
    pub head: Head,
    pub points: usize,
}

// The digits that are read of a number: how many, and their value.
#[derive(Clone, Copy, Debug, PartialEq, Eq)]
pub struct Digits {
    pub count: usize,
    pub value: u64,
}

impl Digits {
    // no digit yet: their count and their value are 0
    pub const NONE: Digits = Digits { count: 0, value: 0 };
}

// How far a text is read. The points of whole lines lie in the lent slice, and the card has their number, 65 for more.
#[derive(Clone, Copy)]
pub enum State {
    // bytes read of the first line
    Names(usize),
    // the digits of the degree
    Degree(Digits),
    // the degree, and bytes read of `chordal `
    Chordal(usize, usize),
    // the degree, and bytes read of `centripetal `
    Centripetal(usize, usize),
    // degree, spacing, and the digits of the tolerance
    Bound(usize, Spacing, Digits),
    // degree, spacing, and bytes read of `none` and its newline
    Without(usize, Spacing, usize),
    // bytes read of the names of the coordinates
    Axes(Head, usize),
    // the card so far, and the digits of x
    X(Card, Digits),
    // the card so far, x, and the digits of y
    Y(Card, u64, Digits),
    // the card so far, x, y, and the digits of z
    Z(Card, u64, u64, Digits),
    // no card's text; it is still read to its end, so this is a state and no error
    Unreadable,
}

// Why a whole text is no card that is fitted, with document 01's numbers: it has over 64 points, or it is the text of no card.
#[derive(Clone, Copy, Debug, PartialEq, Eq)]
pub enum CardError {
    TooMany = 8,
    Unreadable = 11,
}

impl CardError {
    // Document 01's number.
    pub fn number(self) -> u32
        ensures { result ≡ refusal_number self }
    {
        self as u32
    }
}

// Lays the point of three words down as point n. Not inlined, since 64 points of a text are laid at most, and the loop over its bytes is shorter without it.
#[inline(never)]
fn lay(n: usize, x: u64, y: u64, z: u64, points: &mut [f64])
    requires index { n < POINTS }
    requires room { PLACES ≤ length points.old }
    ensures { points.new ≡ put_point n (point_of (row x y z)) points.old }
{
    let q = Point {
        x: card_text::from_word(x),
        y: card_text::from_word(y),
        z: card_text::from_word(z),
    };
    geometry::put_point(points, n, q);
}

impl State {
    // Nothing is read yet.
    pub fn start() -> State
        ensures { result ≡ begun }
    {
        State::Names(0)
    }

    // The state after one byte more, where the text may go on with it.
    #[tactic(auto, unfolding(crate::specs::Reading::reached))]
    fn reach(self, b: u8) -> Option<State>
        requires { Held self }
        ensures { result ≡ reached self b }
    {
        match self {
            State::Names(k) => steps::names(k, b),
            State::Degree(read) => steps::degree(read, b),
            State::Chordal(d, k) => steps::chordal(d, k, b),
            State::Centripetal(d, k) => steps::centripetal(d, k, b),
            State::Bound(d, s, read) => steps::bound(d, s, read, b),
            State::Without(d, s, k) => steps::without(d, s, k, b),
            State::Axes(h, k) => steps::axes(h, k, b),
            State::X(card, read) => steps::x(card, read, b),
            State::Y(card, x, read) => steps::y(card, x, read, b),
            State::Z(card, x, y, read) => steps::z(card, x, y, read, b),
            State::Unreadable => None,
        }
    }

    // The state after one byte more.
    pub fn step(self, b: u8) -> State
        requires { Held self }
        ensures { result ≡ next self b }
    {
        self.reach(b).unwrap_or(State::Unreadable)
    }

    // The points after one byte more: where it ends a point's line, and that is one of the first 64, the point is laid down.
    #[tactic(auto, using(crate::proofs::CaseLaws::word_goes_on), unfolding(crate::specs::Reading::kept, crate::specs::Reading::word_next))]
    pub fn keep(self, b: u8, points: &mut [f64])
        requires { PLACES ≤ length points.old }
        ensures { points.new ≡ kept self b points.old }
    {
        let State::Z(card, x, y, read) = self else {
            return;
        };
        if read.count == 16 && b == b'\n' && card.points < POINTS {
            lay(card.points, x, y, read.value, points);
        }
    }

    // The state and the points after a part of the text.
    pub fn feed(self, text: &[u8], points: &mut [f64]) -> State
        requires held { Held self }
        requires room { PLACES ≤ length points.old }
        ensures state { result ≡ after self text.now }
        ensures points { points.new ≡ kept_after self text.now points.old }
        ensures held { Held result }
    {
        let mut state = self;
        for b in text {
            state.keep(*b, points);
            state = state.step(*b);
        }
        state
    }

    // What the whole text is judged.
    pub fn finish(self) -> Result<Card, CardError>
        ensures judged { result ≡ judgement_of self }
        ensures few { Few result }
    {
        match self {
            State::X(card, Digits { count: 0, .. }) if card.points <= POINTS => Ok(card),
            State::X(_, Digits { count: 0, .. }) => Err(CardError::TooMany),
            _ => Err(CardError::Unreadable),
        }
    }
}

// Judges a whole text, and lays the points down.
pub fn judge(text: &[u8], points: &mut [f64]) -> Result<Card, CardError>
    requires { PLACES ≤ length points.old }
    ensures judged { Judged text.now points.old points.new result }
    ensures points { points.new ≡ kept_after begun text.now points.old }
{
    State::start().feed(text, points).finish()
}

// Reads a whole text into a slice of any length: what it is judged, or nothing where the slice has no room for 64 points.
pub fn read_card(text: &[u8], points: &mut [f64]) -> Option<Result<Card, CardError>>
    ensures { ReadInto text.now points.old points.new result }
{
    if points.len() < PLACES {
        return None;
    }
    Some(judge(text, points))
}
