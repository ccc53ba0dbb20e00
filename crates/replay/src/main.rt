// Replays a list of ladder calls: each is run again, and its answer compared with the one that a reference program gave, bit for bit.
// The list is standard input, a word of 16 hexadecimal digits to a line: how many cases, then case by case the call and its answer.
// All room is on the stack, none from the heap: 512 KiB of text, its words in 241 KiB, and some 1.1 MiB lent to the calls, enough for 3,200 places and degree 27.
#![tactic(auto)]

mod runs;

use crate::runs::Tally;

// The most bytes of a text, and the words that they write.
const TEXT: usize = 524288;

const WORDS: usize = TEXT / 17;

// What the replay came to. A difference is told by its case's number, from 1 on. (`println!` would rest on one more of the library's axioms.)
fn tell(tally: Tally) {
    if let Some(first) = tally.first {
        io::write_all(1, b"first different: case ");
        io::print_decimal(1, first);
        io::write_all(1, b"\n");
    }
    io::print_decimal(1, tally.cases);
    io::write_all(1, b" answers replayed, ");
    io::print_decimal(1, tally.different);
    io::write_all(1, b" different\n");
}

// Replays the list that a text writes, unless it is damaged.
fn replay_text(text: &[u8]) -> Option<Tally> {
    let mut words = [0u64; WORDS];
    let count = replay_list::lines::read_lines(text, &mut words)?;
    runs::replay(&words[..count])
}

// A text that fills the buffer, whose length is no number of whole lines, is damaged.
fn main() {
    let mut text = [0u8; TEXT];
    let n = io::read_full(0, &mut text);
    match replay_text(&text[..n]) {
        Some(tally) => tell(tally),
        None => {
            io::write_all(1, b"list unreadable\n");
        }
    }
}
