// The list's lines: a word each, as 16 lowercase hexadecimal digits and a newline.
ghost use Rattle.std.specs.Prelude.{◌+◌, ◌≤◌, length};
ghost use Rattle.replay_list.specs.Text.{ReadAt, ReadAs};

// The word of the line that starts at a place, unless the text is damaged there.
#[tactic(auto, using(card_text::proofs::NumberLaws::word_room, places::proofs::RegionLaws::length_part))]
fn word_at(text: &[u8], start: usize) -> Option<u64>
    requires { start + 17 ≤ length text.now }
    ensures { ReadAt text.now start result }
{
    let mut w = 0u64;
    for b in &text[start..start + 16] {
        let d = card_text::digit(*b)?;
        w = w * 16 + d;
    }
    (text[start + 16] == b'\n').then_some(w)
}

// Lays the words of a text's lines from the first place on, and answers how many they are, unless the text is no list of words.
#[tactic(auto, using(crate::proofs::Loops::laying))]
pub fn read_lines(text: &[u8], words: &mut [u64]) -> Option<usize>
    ensures { ReadAs text.now words.old words.new result }
{
    let n = text.len() / 17;
    if text.len() % 17 != 0 || words.len() < n {
        return None;
    }
    // a line's place follows from its number
    for (k, word) in words[..n].iter_mut().enumerate() {
        *word = word_at(text, 17 * k)?;
    }
    Some(n)
}
