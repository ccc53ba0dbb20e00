// The reader: a point of an archived curve (`KnotVector::new`, `KnotVector::basis`, and the poles summed as `BasisTable::point` does).
ghost use Rattle.std.specs.Prelude.{◌≡◌, ◌++◌, ◌+◌, ◌-◌, ◌*◌, ◌/◌, ◌<◌, ◌≤◌, length, drop};
ghost use Rattle.geometry.specs.Doubles.{at};
ghost use Rattle.geometry.specs.Points.{weighted, point_at};
ghost use Rattle.bspline.specs.Basis.{basis_at};
ghost use Rattle.bspline.specs.Spans.{NeverFalls};
ghost use Rattle.bspline.specs.Reader.{flat_knots, sum_of, curve_point};

use geometry::Point;

// The flat knots: knot k repeated by its multiplicity, in the first places of `out`.
pub fn flat_knots(knots: &[f64], mults: &[u32], out: &mut [f64])
    requires { (length knots.now ≡ length mults.now) × (sum_of mults.now ≤ length out.old) }
    ensures { out.new ≡ flat_knots knots.now mults.now ++ drop (sum_of mults.now) out.old }
{
    // end counts the places that were written, more than the knots that were read
    let mut end = 0;
    for (knot, mult) in knots.iter().zip(mults) {
        let m = *mult as usize;
        out[end..end + m].fill(*knot);
        end += m;
    }
}

// The sum of the values times the poles from `first` on.
pub fn pole_sum(values: &[f64], poles: &[f64], first: usize) -> Point
    requires { 3 * (first + length values.now) ≤ length poles.now }
    ensures { result ≡ weighted (length values.now) (at values.now) (λ a. point_at poles.now (first + a)) }
{
    let mut sum = Point {
        x: 0.0,
        y: 0.0,
        z: 0.0,
    };
    // a pole is found by its number
    for (a, value) in values.iter().enumerate() {
        sum = sum.plus_scaled(*value, geometry::point_at(poles, first + a));
    }
    sum
}

// The point at u, which the span holds.
pub fn span_point(flat: &[f64], degree: usize, span: usize, poles: &[f64], u: f64) -> Point
    requires { (degree ≤ 25) × (degree ≤ span) × (span + degree < length flat.now) × (3 * (span + 1) ≤ length poles.now) }
    ensures { result ≡ weighted (degree + 1) (at (basis_at flat.now degree span u)) (λ a. point_at poles.now (span - degree + a)) }
{
    let mut values = [0.0; 26];
    crate::basis::basis_values(flat, span, degree, u, &mut values);
    pole_sum(&values[..degree + 1], poles, span - degree)
}

// The point at u of a curve whose flat knots never fall: u is clamped into the range.
pub fn curve_point(flat: &[f64], degree: usize, poles: &[f64], u: f64) -> Point
    requires fits { (degree ≤ 25) × (2 * degree + 2 ≤ length flat.now) × (3 * (length flat.now - degree - 1) ≤ length poles.now) }
    requires never_falls { NeverFalls flat.now }
    ensures { result ≡ curve_point flat.now degree poles.now u }
{
    let end = flat.len() - 1 - degree;
    let x = u.clamp(flat[degree], flat[end]);
    let span = crate::spans::span_of(flat, degree, x);
    span_point(flat, degree, span, poles, x)
}
