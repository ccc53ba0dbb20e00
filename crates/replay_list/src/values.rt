// Lists of values beside lists of words.
ghost use Rattle.std.specs.Prelude.{◌≡◌, ℕ};
ghost use Rattle.std.specs.Float.{binary64};
ghost use Rattle.std.specs.Float.Ieee.{to_bits};
ghost use Rattle.replay_list.specs.Compared.{same_words};

// A value that the list has as a word.
pub trait Worded: Copy {
    ghost word: { Self → ℕ };

    fn word(self) -> u64
        ensures { result ≡ word self };
}

impl Worded for f64 {
    ghost word = { to_bits binary64 };

    fn word(self) -> u64 {
        card_text::to_word(self)
    }
}

impl Worded for u32 {
    ghost word = { λ x. x };

    fn word(self) -> u64 {
        u64::from(self)
    }
}

// Whether there are as many values as words, or more, and the first of them have these words.
#[tactic(auto, unfolding(crate::specs::Compared::same_words))]
pub fn same_words<T: Worded>(values: &[T], words: &[u64]) -> bool
    ensures { result ≡ same_words T.word values.now words.now }
{
    words.len() <= values.len() && values.iter().zip(words).all(|(x, w)| x.word() == *w)
}
