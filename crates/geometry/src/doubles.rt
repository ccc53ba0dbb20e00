// The larger of two and of a list, which are the program's own; finiteness and the cut to a whole number, which are the library's, with the definitions that
// contracts cite.
ghost use Rattle.std.specs.Prelude.{◌≡◌};
ghost use Rattle.geometry.specs.Doubles.{larger, largest, is_finite, whole_part};

// The larger of two, as `f64::max` folds it from 0: the first unless the second is above it, so that a second that is NaN is passed over.
// (The library's leaves open which of 0 and -0 it gives.)
pub fn max(x: f64, y: f64) -> f64
    ensures { result ≡ larger x y }
{
    if x < y { y } else { x }
}

// The largest of 0 and the values of a list, NaN passed over.
pub fn largest_of(list: &[f64]) -> f64
    ensures { result ≡ largest list.now }
{
    let mut most = 0.0;
    for x in list {
        most = max(most, *x);
    }
    most
}

// Neither NaN nor infinite.
pub fn is_finite(x: f64) -> bool
    ensures { result ≡ is_finite x }
{
    x.is_finite()
}

// x as usize: cut to its whole part, 0 for a NaN and below 0, and the largest usize above it.
pub fn whole_part(x: f64) -> usize
    ensures { result ≡ whole_part x }
{
    std::num::saturating_f64_to_usize(x)
}
