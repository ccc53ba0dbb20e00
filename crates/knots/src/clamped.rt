// Clamped flat knots from parameters: averaged (`averaged_knots`), spread along the parameters (`approximation_knots`), and those of a single piece.
ghost use Rattle.std.specs.Prelude.{◌≡◌, ℕ, ◌+◌, ◌-◌, ◌*◌, ◌≤◌, ◌<◌, length};
ghost use Rattle.places.specs.Places.{list_of};
ghost use Rattle.geometry.specs.Doubles.{at, sum_below};
ghost use Rattle.knots.specs.Knots.{clamped_knots, averaged_knot, averaged_knots, between_places, spread_knot, approximation_knots, bezier_knots};
ghost use Rattle.knots.specs.Calls.{KnotRoom};

// The first and the last degree + 1 flat knots, 0 and 1; those between stay.
fn clamp_ends(poles: usize, degree: usize, flat: &mut [f64])
    requires apart { degree < poles }
    requires room { length flat.old ≡ poles + degree + 1 }
    ensures { flat.new ≡ clamped_knots poles degree (λ (j : ℕ). at flat.old (degree + 1 + j)) }
{
    flat[..degree + 1].fill(0.0);
    flat[poles..].fill(1.0);
}

// params[1] + .. + params[degree - 1], from 0.
fn leading_sum(params: &[f64], degree: usize) -> f64
    requires some { 1 ≤ degree }
    requires within { degree ≤ length params.now }
    ensures { result ≡ sum_below (degree - 1) (λ (k : ℕ). at params.now (k + 1)) }
{
    let mut sum = 0.0;
    for x in &params[1..degree] {
        sum += *x;
    }
    sum
}

// The inner averaged knots, by a running sum of `degree` parameters.
#[tactic(auto, unfolding(crate::specs::Knots::averaged_knot, crate::specs::Knots::carried), using(crate::proofs::ParameterLaws::list_by))]
fn average(params: &[f64], degree: usize, inner: &mut [f64])
    requires { KnotRoom (length params.now) (length params.now) degree (length inner.old + 2 * degree + 2) }
    ensures { inner.new ≡ list_of (length inner.old) (averaged_knot params.now degree) }
{
    let mut sum = leading_sum(params, degree);
    // by number: after `iter_mut().zip(..)` what the list holds is not known
    for (j, knot) in inner.iter_mut().enumerate() {
        sum += params[j + degree];
        *knot = sum / degree as f64;
        sum -= params[j + 1];
    }
}

// As many flat knots as parameters and degree + 1 more, the inner ones averaged.
pub fn averaged_knots(params: &[f64], degree: usize, flat: &mut [f64])
    requires { KnotRoom (length params.now) (length params.now) degree (length flat.old) }
    ensures { flat.new ≡ averaged_knots params.now degree }
{
    let n = params.len();
    average(params, degree, &mut flat[degree + 1..n]);
    clamp_ends(n, degree, flat);
}

// The value at a fractional index, between the two around it; NaN where there are no two.
#[tactic(auto, unfolding(crate::specs::Knots::between_places), using(crate::proofs::KnotLaws::between_none))]
fn between(params: &[f64], index: f64) -> f64
    requires some { 1 ≤ length params.now }
    requires few { length params.now ≤ 1024 }
    ensures { result ≡ between_places params.now index }
{
    let i = geometry::doubles::whole_part(index);
    if params.len() - 1 <= i {
        return 0.0 / 0.0;
    }
    let fraction = index - i as f64;
    (1.0 - fraction) * params[i] + fraction * params[i + 1]
}

// The inner knots, spread along the parameters.
#[tactic(auto, unfolding(crate::specs::Knots::spread_knot), using(crate::proofs::ParameterLaws::list_by))]
fn spread(params: &[f64], poles: usize, degree: usize, inner: &mut [f64])
    requires { KnotRoom (length params.now) poles degree (length inner.old + 2 * degree + 2) }
    ensures { inner.new ≡ list_of (length inner.old) (spread_knot params.now poles degree) }
{
    let step = (params.len() - 1) as f64 / (poles - degree) as f64;
    // a knot follows from its number
    for (j, knot) in inner.iter_mut().enumerate() {
        *knot = between(params, (j + 1) as f64 * step);
    }
}

// The flat knots of `poles` poles, the inner ones spread along the parameters.
pub fn approximation_knots(params: &[f64], poles: usize, degree: usize, flat: &mut [f64])
    requires { KnotRoom (length params.now) poles degree (length flat.old) }
    ensures { flat.new ≡ approximation_knots params.now poles degree }
{
    spread(params, poles, degree, &mut flat[degree + 1..poles]);
    clamp_ends(poles, degree, flat);
}

// The flat knots of a single Bézier piece.
pub fn bezier_knots(degree: usize, flat: &mut [f64])
    requires { length flat.old ≡ 2 * degree + 2 }
    ensures { flat.new ≡ bezier_knots degree }
{
    clamp_ends(degree + 1, degree, flat);
}
