// The answers of the list. An answer's words: number, and of a fit mark, largest deviation, poles, distinct knots, unreadable deviations,
// then the flat knots, the distinct knots, the multiplicities and the poles.
ghost use Rattle.std.specs.Prelude.{◌≡◌, length};
ghost use Rattle.replay_list.specs.Compared.{refused_with, same_told, same_values, same_fit};
ghost use Rattle.replay_list.specs.Listed.{listed_at, Within, Held};

use crate::values::same_words;
use bspline::Refusal;
use fitting::Fit;

// A fit as the list has it. Its values start at `values`, and after them stands the next case: the list holds the words of many.
#[derive(Clone, Copy)]
pub struct ListedFit {
    pub degree: usize,
    pub mark: u64,
    pub largest: u64,
    pub poles: usize,
    pub knots: usize,
    pub unreadable: usize,
    pub values: usize,
    pub next: usize,
}

// What a call handed out, to be read: poles, flat knots, distinct knots and their multiplicities.
#[derive(Clone, Copy)]
pub struct Handed<'a> {
    pub poles: &'a [f64],
    pub flat: &'a [f64],
    pub knots: &'a [f64],
    pub mults: &'a [u32],
}

// The answer whose words start at a place, of a call of a degree: a fit, or the number of a refusal.
#[tactic(auto, unfolding(crate::specs::Listed::listed_at))]
pub fn listed_at(words: &[u64], start: usize, degree: usize) -> Option<Result<ListedFit, u64>>
    ensures value { result ≡ listed_at words.now start degree }
    ensures held { Held (length words.now) start result }
{
    let number = *words.get(start)?;
    if number != 0 {
        return Some(Err(number));
    }
    let [_, mark, largest, poles, knots, unreadable, ..] = &words[start..] else {
        return None;
    };
    let poles = *poles as usize;
    let knots = *knots as usize;
    if degree > 25 || poles > 1024 || knots > 1050 {
        return None;
    }
    let values = start + 6;
    let next = values + (poles + degree + 1) + 2 * knots + 3 * poles;
    if words.len() < next {
        return None;
    }
    Some(Ok(ListedFit {
        degree,
        mark: *mark,
        largest: *largest,
        poles,
        knots,
        unreadable: *unreadable as usize,
        values,
        next,
    }))
}

// Whether an answer is the refusal of a number.
#[tactic(auto, unfolding(crate::specs::Compared::refused_with))]
pub fn refused_with(answer: Result<Fit, Refusal>, number: u64) -> bool
    ensures { result ≡ refused_with answer number }
{
    match answer {
        Ok(_) => false,
        Err(c) => u64::from(c.number()) == number,
    }
}

// Whether mark, largest deviation and counts are those of the list, which has them as words: two types, so no derived equality.
#[tactic(auto, unfolding(crate::specs::Compared::same_told))]
fn same_told(fit: Fit, listed: ListedFit) -> bool
    ensures { result ≡ same_told fit listed }
{
    fit.mark.number() as u64 == listed.mark
        && card_text::to_word(fit.mark.deviation()) == listed.largest
        && fit.poles == listed.poles
        && fit.knots == listed.knots
        && fit.unreadable == listed.unreadable
}

// Whether the values handed out are those of the list.
#[tactic(auto, unfolding(crate::specs::Compared::same_values))]
fn same_values(words: &[u64], listed: ListedFit, handed: Handed) -> bool
    requires { Within (length words.now) listed }
    ensures { result ≡ same_values words.now listed handed.entry.poles.now handed.entry.flat.now handed.entry.knots.now handed.entry.mults.now }
{
    let at_knots = listed.values + (listed.poles + listed.degree + 1);
    let at_mults = at_knots + listed.knots;
    let at_poles = at_mults + listed.knots;
    let end = at_poles + 3 * listed.poles;
    same_words(handed.flat, &words[listed.values..at_knots])
        && same_words(handed.knots, &words[at_knots..at_mults])
        && same_words(handed.mults, &words[at_mults..at_poles])
        && same_words(handed.poles, &words[at_poles..end])
}

// Whether an answer is a fit of the list.
#[tactic(auto, unfolding(crate::specs::Compared::same_fit))]
pub fn same_fit(
    answer: Result<Fit, Refusal>,
    words: &[u64],
    listed: ListedFit,
    handed: Handed,
) -> bool
    requires { Within (length words.now) listed }
    ensures { result ≡ same_fit words.now listed handed.entry.poles.now handed.entry.flat.now handed.entry.knots.now handed.entry.mults.now answer }
{
    match answer {
        Ok(fit) => same_told(fit, listed) && same_values(words, listed, handed),
        Err(_) => false,
    }
}
