// The square root of an f64, correctly rounded, in whole numbers. The quick way is a guess from a table with one step of Newton, and a test that what comes of it is
// the root; where it is not, a guess and two steps of Heron give the root of 54 binary digits, and one division the other 26.
// It is the program's own (document 01): the library's is the machine's instruction, whose bits the language takes for given.

ghost use Rattle.std.specs.Prelude.{IfSome, ◌≡◌, ◌+◌, ◌-◌, ◌*◌, ◌/◌, ◌^◌, ◌<◌, ◌≤◌};
ghost use Rattle.geometry.specs.Root.{sqrt_of};
ghost use Rattle.geometry.specs.RootSteps.{RootOf, root_bits, pattern_units, nearest_to};

// The whole part q of the root of a whole number n, and the rest n - q * q.
#[derive(Clone, Copy)]
pub struct Root {
    pub q: u64,
    pub rest: u64,
}

// A first guess at the root of m, within one part in 130: a straight line on each of the two
// ranges of m. The proof needs its range alone.
fn guess(m: u64) -> u64
    requires { m < 2 ^ 54 }
    ensures { (2 ^ 25 ≤ result) × (result < 2 ^ 29) }
{
    let t = m >> 27;
    if m < 0x20_0000_0000_0000 {
        ((t * 855) >> 10) + 39_605_534
    } else {
        ((t * 604) >> 10) + 56_010_000
    }
}

// The mean of a guess g at the root of m and of m / g: at least the root, whatever the guess.
fn heron(m: u64, g: u64) -> u64
    requires { (2 ^ 52 ≤ m) × (m < 2 ^ 54) × (2 ^ 25 ≤ g) × (g < 2 ^ 29) }
    ensures { (m < (result + 1) * (result + 1)) × (2 ^ 25 ≤ result) × (result < 2 ^ 29) }
{
    (g + m / g) / 2
}

// The root of m. Two steps from the guess are the root, or one more where m is just below a square; a guess, no index, is lowered.
fn short_root(m: u64) -> Root
    requires { (2 ^ 52 ≤ m) × (m < 2 ^ 54) }
    ensures { RootOf m result.q result.rest }
{
    let mut q = heron(m, heron(m, guess(m)));
    while m < q * q {
        q -= 1;
    }
    Root { q, rest: m - q * q }
}

// From the root of n to that of n * 2^52, by one division.
fn long_root(s: Root) -> Root
    requires { (s.rest ≤ 2 * s.q) × (2 ^ 26 ≤ s.q) × (s.q < 2 ^ 27) }
    ensures { RootOf ((s.q * s.q + s.rest) * 2 ^ 52) result.q result.rest }
{
    let a = s.rest * 0x400_0000;
    let d = s.q * 2;
    let u = a / d;
    let v = a % d;
    let q = s.q * 0x400_0000 + u;
    let more = v * 0x400_0000;
    let less = u * u;
    if less <= more {
        Root {
            q,
            rest: more - less,
        }
    } else {
        Root {
            q: q - 1,
            rest: more + (2 * q - 1) - less,
        }
    }
}

// The bit pattern of the root of s * 2^(p + 52) units of 2^-2148. Where p is odd, s is doubled, so that
// the power of two has a whole root.
fn root_bits(s: u64, p: u64) -> u64
    requires { (2 ^ 52 ≤ s) × (s < 2 ^ 53) × (p ≤ 3067) }
    ensures { result ≡ root_bits (s * 2 ^ (p + 52)) }
{
    let r = long_root(short_root(s * (1 + p % 2)));
    let down = p / 2 * 0x10_0000_0000_0000 + r.q;
    if r.q < r.rest { down + 1 } else { down }
}

// The bit pattern of the root of the positive finite value whose bit pattern is b. A pattern below
// 2^52 has no leading digit of its own, and is moved up to 53 digits.
fn positive_bits(b: u64) -> u64
    requires { (0 < b) × (b < 0x7ff0_0000_0000_0000) }
    ensures { result ≡ root_bits (pattern_units b * 2 ^ 1074) }
{
    if b < 0x10_0000_0000_0000 {
        let places = u64::leading_zeros(b) as u64 - 11;
        root_bits(b << places, 1022 - places)
    } else {
        root_bits(
            0x10_0000_0000_0000 + b % 0x10_0000_0000_0000,
            (b >> 52) + 1021,
        )
    }
}

// The square root of x by the careful way, which answers for every x.
fn careful_sqrt(x: f64) -> f64
    ensures { result ≡ sqrt_of x }
{
    if x.is_nan() {
        return x;
    }
    if x == 0.0 {
        return x;
    }
    if x < 0.0 {
        return 0.0 / 0.0;
    }
    let b = f64::to_bits(x);
    if b < 0x7ff0_0000_0000_0000 {
        f64::from_bits(positive_bits(b))
    } else {
        x
    }
}

// A guess at 2^32 / √x, where x from 1 to 4 has the digits of the bit pattern b, by the parity of its exponent. Its size is all that the proofs need.
fn reciprocal(b: u64) -> u64
    ensures { result < 2 ^ 32 }
{
    let i = (b >> 44) % 512;
    let t = (b >> 21) % 0x80_0000;
    let word = seeds::word(i);
    let falling = std::num::wrapping_sub_u64(word, t * (word % 0x1_0000_0000));
    std::num::wrapping_add_u64(falling, ((t * t) >> 10) * (word % 0x800)) >> 32
}

// The root of n * 2^44 to the nearest whole number, from a guess y at 2^62 / √n: 31 digits q by one product, the other 22 as c by a step of Newton. With R for both,
// R * (R + 1) has to lie above n * 2^44 by less than 2 R. The last test says so in parts of 2^22, where the square of c lies between 4 c - 2^24 and 4 c.
fn quick_root(n: u64, y: u64) -> Option<u64>
    requires { (2 ^ 60 ≤ n) × (n < 2 ^ 62) × (y < 2 ^ 32) }
    ensures { IfSome result (nearest_to (n * 2 ^ 44)) }
{
    let q = ((n >> 30) * y) >> 32;
    let r = std::num::wrapping_sub_u64(n, q * q);
    if r >> 3 >= q {
        return None;
    }
    let c = ((r >> 3) * y + 0x20_c000_0000) >> 38;
    let square = 2 * ((q + 2) * c) + q;
    if std::num::wrapping_sub_u64(square, r * 0x40_0000 + 0x100_0000) < 2 * q - 0x100_0000 {
        Some(q * 0x40_0000 + c)
    } else {
        None
    }
}

// The bit pattern of the root of the value whose bit pattern is b, at 2^-1022 or above.
fn quick_bits(b: u64) -> Option<u64>
    requires { (1 ≤ b / 2 ^ 52) × (b / 2 ^ 52 ≤ 2046) }
    ensures { IfSome result (λ x. x ≡ root_bits (pattern_units b * 2 ^ 1074)) }
{
    let s = 0x10_0000_0000_0000 + b % 0x10_0000_0000_0000;
    let p = (b >> 52) + 1021;
    let q = quick_root(s << (8 + p % 2), reciprocal(b))?;
    Some(p / 2 * 0x10_0000_0000_0000 + q)
}

// The square root of x, rounded to the nearest f64.
pub fn sqrt(x: f64) -> f64
    ensures { result ≡ sqrt_of x }
{
    if x.is_nan() {
        return x;
    }
    let b = f64::to_bits(x);
    if std::num::wrapping_sub_u64(b >> 52, 1) < 2046 {
        if let Some(bits) = quick_bits(b) {
            return f64::from_bits(bits);
        }
    }
    careful_sqrt(x)
}
