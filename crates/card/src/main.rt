// The card program: a ladder's text from standard input, the text of its curve or of the refusal to standard output.
#![tactic(auto)]

mod answer;

ghost use Rattle.std.specs.Prelude.{◌≡◌, List, ℕ, ◌≤◌, is_some, length, take, drop};
ghost use Rattle.io.specs.Counts.{IsPrefixLen};
ghost use Rattle.card_reader.specs.Reading.{Held, HasRead};
ghost use Rattle.card.specs.Answers.{Answered};
ghost use Rattle.card.specs.Input.{Took};

use card_printer::ROOM;
use card_reader::{PLACES, State};
use std::io::{Read, Stdin};

// Reads a part of the text into the state; none where the read brings no byte, at the end or because it failed.
fn read_some(mut stdin: Stdin, state: &mut State, points: &mut [f64]) -> Option<()>
    requires held { Held state.old }
    requires room { PLACES ≤ length points.old }
    ensures held { Held state.new }
    ensures took { Took state.old points.old state.new points.new (is_some result) }
{
    let mut buffer = io::large_buffer();
    let count = stdin.read(&mut buffer).unwrap_or(0);
    if count == 0 {
        return None;
    }
    *state = state.feed(&buffer[..count], points);
    Some(())
}

// Reads to the end. Nothing says that an input ends, so there are no more reads than a number that no run uses up.
fn read_all(stdin: Stdin, points: &mut [f64]) -> State
    requires { PLACES ≤ length points.old }
    ensures { (t : List ℕ) × HasRead t points.old result points.new }
{
    let mut state = State::start();
    for _ in 0..u64::MAX {
        if read_some(stdin, &mut state, points).is_none() {
            break;
        }
    }
    state
}

// Reads a text to its end, and puts the text of its answer at the front of out. Answers how long that is.
fn run(stdin: Stdin, out: &mut [u8]) -> usize
    requires { ROOM ≤ length out.old }
    ensures answered { (t : List ℕ) × Answered t (take result out.new) }
    ensures rest { drop result out.new ≡ drop result out.old }
    ensures prefix { IsPrefixLen result out.new }
{
    let mut points = [0.0; PLACES];
    let state = read_all(stdin, &mut points);
    answer::answer(state.finish(), &points, out)
}

fn main(rt: HostRuntime) {
    let mut out = [0u8; ROOM];
    let n = run(rt.stdin(), &mut out);
    io::write_all(1, &out[..n]);
}
