// One byte more of each part of a card's text: the state that follows, or none where the part doesn't go on with that byte. Each part has a state of its own, so steps
// that are alike are no one function; whether digits are decimal or hexadecimal follows from the part.
ghost use Rattle.std.specs.Prelude.{◌≡◌, ◌<◌, length};
ghost use Rattle.card_reader.specs.Reading.{DigitsOf, literal_next, word_next, degree_next, names_next, chordal_next, centripetal_next, tolerance_next, without_next, axes_next, x_next, y_next, z_next};

use crate::{Card, Digits, Head, POINTS, State};
use knots::Spacing;

// A word of which a byte more is read: its digits, or the whole word, which has ended. (In a Result a whole word
// would be the error.)
#[derive(Clone, Copy, Debug, PartialEq, Eq)]
pub enum Word {
    More(Digits),
    Whole(u64),
}

// A digit more of a word, or, after 16, the byte that ends it.
#[tactic(auto, using(card_text::proofs::NumberLaws::word_room), unfolding(crate::specs::Reading::word_next))]
pub fn word_digit(read: Digits, b: u8, end: u8) -> Option<Word>
    requires { DigitsOf 16 16 read }
    ensures { result ≡ word_next read b end }
{
    if read.count == 16 {
        return (b == end).then_some(Word::Whole(read.value));
    }
    let d = card_text::digit(b)?;
    Some(Word::More(Digits {
        count: read.count + 1,
        value: read.value * 16 + d,
    }))
}

// A byte more of a fixed text: `done` after its last, and `more` after another.
#[tactic(auto, unfolding(crate::specs::Reading::literal_next))]
fn literal(text: &[u8], k: usize, b: u8, done: State, more: State) -> Option<State>
    requires { k < length text.now }
    ensures { result ≡ literal_next text.now k b done more }
{
    if b != text[k] {
        return None;
    }
    Some(if k + 1 == text.len() { done } else { more })
}

// The first line.
pub fn names(k: usize, b: u8) -> Option<State>
    requires { k < 25 }
    ensures { result ≡ names_next k b }
{
    literal(
        b"degree spacing tolerance\n",
        k,
        b,
        State::Degree(Digits::NONE),
        State::Names(k + 1),
    )
}

// A digit more of the degree, or the blank after it. It has nine digits at most, and no needless zero.
#[tactic(auto, unfolding(crate::specs::Reading::degree_next))]
pub fn degree(read: Digits, b: u8) -> Option<State>
    requires { DigitsOf 10 9 read }
    ensures { result ≡ degree_next read b }
{
    if b == b' ' {
        return (read.count > 0).then_some(State::Chordal(read.value as usize, 0));
    }
    let d = card_text::digit(b)?;
    if d > 9 || read.count == 9 || (read.count > 0 && read.value == 0) {
        return None;
    }
    Some(State::Degree(Digits {
        count: read.count + 1,
        value: read.value * 10 + d,
    }))
}

// `chordal `, or on to `centripetal `, whose second byte tells it apart.
pub fn chordal(d: usize, k: usize, b: u8) -> Option<State>
    requires { k < 8 }
    ensures { result ≡ chordal_next d k b }
{
    if k == 1 && b == b'e' {
        return Some(State::Centripetal(d, 2));
    }
    literal(
        b"chordal ",
        k,
        b,
        State::Bound(d, Spacing::Chordal, Digits::NONE),
        State::Chordal(d, k + 1),
    )
}

// `centripetal `.
pub fn centripetal(d: usize, k: usize, b: u8) -> Option<State>
    requires { k < 12 }
    ensures { result ≡ centripetal_next d k b }
{
    literal(
        b"centripetal ",
        k,
        b,
        State::Bound(d, Spacing::Centripetal, Digits::NONE),
        State::Centripetal(d, k + 1),
    )
}

// The tolerance: `n` begins `none`, all else is a word.
pub fn bound(d: usize, s: Spacing, read: Digits, b: u8) -> Option<State>
    requires { DigitsOf 16 16 read }
    ensures { result ≡ tolerance_next d s read b }
{
    if read.count == 0 && b == b'n' {
        return Some(State::Without(d, s, 1));
    }
    Some(match word_digit(read, b, b'\n')? {
        Word::More(read) => State::Bound(d, s, read),
        Word::Whole(w) => State::Axes(
            Head {
                degree: d,
                spacing: s,
                tolerance: Some(w),
            },
            0,
        ),
    })
}

// `none` and the newline.
pub fn without(d: usize, s: Spacing, k: usize, b: u8) -> Option<State>
    requires { k < 5 }
    ensures { result ≡ without_next d s k b }
{
    let head = Head {
        degree: d,
        spacing: s,
        tolerance: None,
    };
    literal(
        b"none\n",
        k,
        b,
        State::Axes(head, 0),
        State::Without(d, s, k + 1),
    )
}

// The names of the coordinates.
pub fn axes(h: Head, k: usize, b: u8) -> Option<State>
    requires { k < 6 }
    ensures { result ≡ axes_next h k b }
{
    literal(
        b"x y z\n",
        k,
        b,
        State::X(Card { head: h, points: 0 }, Digits::NONE),
        State::Axes(h, k + 1),
    )
}

// A point's first word, its second, and its third.
pub fn x(card: Card, read: Digits, b: u8) -> Option<State>
    requires { DigitsOf 16 16 read }
    ensures { result ≡ x_next card read b }
{
    Some(match word_digit(read, b, b' ')? {
        Word::More(read) => State::X(card, read),
        Word::Whole(x) => State::Y(card, x, Digits::NONE),
    })
}

pub fn y(card: Card, x: u64, read: Digits, b: u8) -> Option<State>
    requires { DigitsOf 16 16 read }
    ensures { result ≡ y_next card x read b }
{
    Some(match word_digit(read, b, b' ')? {
        Word::More(read) => State::Y(card, x, read),
        Word::Whole(y) => State::Z(card, x, y, Digits::NONE),
    })
}

pub fn z(card: Card, x: u64, y: u64, read: Digits, b: u8) -> Option<State>
    requires { DigitsOf 16 16 read }
    ensures { result ≡ z_next card x y read b }
{
    Some(match word_digit(read, b, b'\n')? {
        Word::More(read) => State::Z(card, x, y, read),
        Word::Whole(_) => {
            let n = card.points;
            let more = Card {
                points: if n <= POINTS { n + 1 } else { n },
                ..card
            };
            State::X(more, Digits::NONE)
        }
    })
}
