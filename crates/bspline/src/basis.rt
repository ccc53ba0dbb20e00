// The basis functions that are not zero on a knot span (The NURBS Book, A2.2), in the first places of lent values. The differences of knots are taken where they are
// used. What is read and what is written are parameters, as in the Rust.
ghost use Rattle.std.specs.Prelude.{◌≡◌, ◌++◌, ◌+◌, ◌%◌, ◌<◌, ◌≤◌, length, drop};
ghost use Rattle.places.specs.Places.{list_of};
ghost use Rattle.geometry.specs.Doubles.{at};
ghost use Rattle.bspline.specs.Basis.{left_of, right_of, row, basis_at};

// The functions of degree j at u from those of degree j - 1, in place. The knots move on with the values: a turn's function of degree j - 1 is not zero from knots[0] to
// knots[j]. After `iter_mut().zip(..)` what the values hold would not be known.
fn raise(flat: &[f64], span: usize, u: f64, j: usize, values: &mut [f64])
    requires { (j ≤ span) × (span + j < length flat.now) × (j < length values.old) }
    ensures { values.new ≡ list_of (j + 1) (row (left_of flat.now span u) (right_of flat.now span u) (at values.old) j) ++ drop (j + 1) values.old }
{
    let mut knots = &flat[span + 1 - j..];
    let mut saved = 0.0;
    for value in values[..j].iter_mut() {
        let a = u - knots[0];
        let b = knots[j] - u;
        let temp = *value * (1.0 / (b + a));
        *value = saved + b * temp;
        saved = a * temp;
        knots = &knots[1..];
    }
    values[j] = saved;
}

// The functions of degree j + 1 at u from those of degree j - 1, in one pass and in place: a function of degree j is used where it is made and not stored. A turn's
// function of degree j is not zero from knots[0] to knots[j + 1], that of degree j - 1 from knots[1] on.
fn raise_twice(flat: &[f64], span: usize, u: f64, j: usize, values: &mut [f64])
    requires { (j ≤ span) × (span + j + 1 < length flat.now) × (j + 1 < length values.old) }
    ensures { values.new ≡ list_of (j + 2) (row (left_of flat.now span u) (right_of flat.now span u)
        (row (left_of flat.now span u) (right_of flat.now span u) (at values.old) j) (j + 1)) ++ drop (j + 2) values.old }
{
    let mut knots = &flat[span - j..];
    let mut lower = 0.0;
    let mut upper = 0.0;
    for value in values[..j].iter_mut() {
        let a = u - knots[1];
        let b = knots[j + 1] - u;
        let c = u - knots[0];
        let x = *value * (1.0 / (b + a));
        let y = (lower + b * x) * (1.0 / (b + c));
        *value = upper + b * y;
        lower = a * x;
        upper = c * y;
        knots = &knots[1..];
    }
    let b = knots[j + 1] - u;
    let c = u - knots[0];
    let y = lower * (1.0 / (b + c));
    values[j] = upper + b * y;
    values[j + 1] = c * y;
}

// The function of degree 0, or those of degree 1 where the degree is odd, so that the degrees above them go in pairs.
fn begin(flat: &[f64], span: usize, degree: usize, u: f64, values: &mut [f64])
    requires { (degree ≤ span) × (span + degree < length flat.now) × (degree < length values.old) }
    ensures { values.new ≡ basis_at flat.now (degree % 2) span u ++ drop (degree % 2 + 1) values.old }
{
    values[0] = 1.0;
    if degree % 2 == 1 {
        raise(flat, span, u, 1, values);
    }
}

// The functions of degree 3, as `raise` makes them one degree after the other, with nothing stored but the last: the compiler packs the divisions in pairs (docs/PERFORMANCE.md
// has what it saves).
fn cubic_values(flat: &[f64], span: usize, u: f64, values: &mut [f64])
    requires { (3 ≤ span) × (span + 3 < length flat.now) × (3 < length values.old) }
    ensures { values.new ≡ basis_at flat.now 3 span u ++ drop 4 values.old }
{
    let a = u - flat[span];
    let b = u - flat[span - 1];
    let c = u - flat[span - 2];
    let d = flat[span + 1] - u;
    let e = flat[span + 2] - u;
    let f = flat[span + 3] - u;
    let one = 1.0 * (1.0 / (d + a));
    let low = (0.0 + d * one) * (1.0 / (d + b));
    let high = a * one * (1.0 / (e + a));
    let x = (0.0 + d * low) * (1.0 / (d + c));
    let y = (b * low + e * high) * (1.0 / (e + b));
    let z = a * high * (1.0 / (f + a));
    values[0] = 0.0 + d * x;
    values[1] = c * x + e * y;
    values[2] = b * y + f * z;
    values[3] = a * z;
}

// The functions of any degree, two degrees in a pass: it makes those of degree j + 1 from those of degree j - 1.
pub fn paired_values(flat: &[f64], span: usize, degree: usize, u: f64, values: &mut [f64])
    requires { (degree ≤ span) × (span + degree < length flat.now) × (degree < length values.old) }
    ensures { values.new ≡ basis_at flat.now degree span u ++ drop (degree + 1) values.old }
{
    begin(flat, span, degree, u, values);
    for j in (degree % 2 + 1..degree).step_by(2) {
        raise_twice(flat, span, u, j, values);
    }
}

// The basis functions of the degree that are not zero on the span, at u. Inlined in the table's loop and in the reader, as the Rust's `basis_of_degree` is.
#[inline(always)]
pub fn basis_values(flat: &[f64], span: usize, degree: usize, u: f64, values: &mut [f64])
    requires { (degree ≤ span) × (span + degree < length flat.now) × (degree < length values.old) }
    ensures { values.new ≡ basis_at flat.now degree span u ++ drop (degree + 1) values.old }
{
    if degree == 3 {
        cubic_values(flat, span, u, values);
    } else {
        paired_values(flat, span, degree, u, values);
    }
}
