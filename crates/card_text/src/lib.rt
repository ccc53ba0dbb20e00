// Document 01's words, the 64 bits of a double with one pattern for every NaN, and their digits.
#![tactic(auto)]

ghost use Rattle.std.specs.Prelude.{◌≡◌, ◌<◌, IfSome};
ghost use Rattle.std.specs.Float.{binary64};
ghost use Rattle.std.specs.Float.Ieee.{of_bits, to_bits};
ghost use Rattle.card_text.specs.Text.{digit_of};

use std::num::{f64_from_bits_with_nan, f64_to_bits_with_nan};

// The double of a word. Every pattern of a NaN gives the one NaN.
pub fn from_word(word: u64) -> f64
    ensures { result ≡ of_bits binary64 word }
{
    f64_from_bits_with_nan(word)
}

// The word of a double, and 7ff8000000000000 for a NaN.
pub fn to_word(x: f64) -> u64
    ensures { result ≡ to_bits binary64 x }
{
    f64_to_bits_with_nan(x)
}

// The value of a lower-case hexadecimal digit.
#[tactic(auto, unfolding(crate::specs::Text::digit_of))]
pub fn digit(b: u8) -> Option<u64>
    ensures value { result ≡ digit_of b }
    ensures small { IfSome result (λ d. d < 16) }
{
    match b {
        b'0'..=b'9' => Some(u64::from(b - b'0')),
        b'a'..=b'f' => Some(u64::from(b - b'a' + 10)),
        _ => None,
    }
}
