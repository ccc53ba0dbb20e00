// What the runs beside the Rust link: thin functions with C's calling convention over the inner functions. They are no part of the library's own interface.
#![tactic(auto)]

ghost use Rattle.std.specs.Prelude.{◌≡◌, ◌+◌, ◌-◌, ◌*◌, ◌≤◌, length};
ghost use Rattle.geometry.specs.Root.{sqrt_of};
ghost use Rattle.geometry.specs.Doubles.{whole_part};
ghost use Rattle.geometry.specs.Order.{sorted};
ghost use Rattle.geometry.specs.Points.{put_point};
ghost use Rattle.bspline.specs.Spans.{NeverFalls};
ghost use Rattle.bspline.specs.Reader.{curve_point};
ghost use Rattle.places.specs.Loops.{outcome};
ghost use Rattle.cholesky.specs.Cholesky.{factor_symmetric_band, substitute_symmetric_band};
ghost use Rattle.lu.specs.BandLu.{factor_band, substitute_band};
ghost use Rattle.bands.specs.Shapes.{HasSystem};
ghost use Rattle.knots.specs.Parameters.{point_parameters, shared_parameters};
ghost use Rattle.knots.specs.Knots.{averaged_knots, approximation_knots};
ghost use Rattle.knots.specs.Lines.{line_of, lines_of, HasLine, HasLines};
ghost use Rattle.knots.specs.Calls.{KnotRoom, HasRoom, Compressed};
ghost use Rattle.pieces.specs.Metrics.{metric_of};
ghost use Rattle.pieces.specs.Lent.{Found};

pub mod fits;

use knots::lines::{Line, Lines};
use knots::{Metric, Spacing};

#[unsafe(no_mangle)]
pub extern "C" fn pieces_sqrt(x: f64) -> f64
    ensures { result ≡ sqrt_of x }
{
    geometry::root::sqrt(x)
}

#[unsafe(no_mangle)]
pub extern "C" fn pieces_whole_part(x: f64) -> usize
    ensures { result ≡ whole_part x }
{
    geometry::doubles::whole_part(x)
}

#[unsafe(no_mangle)]
pub extern "C" fn pieces_sort(list: &mut [f64])
    ensures { list.new ≡ sorted list.old }
{
    geometry::order::sort(list);
}

// A reading of a curve whose parts are known to pass the reader's checks, by its flat knots.
#[unsafe(no_mangle)]
pub extern "C" fn pieces_curve_point(
    flat: &[f64],
    degree: usize,
    poles: &[f64],
    u: f64,
    out: &mut [f64],
)
    requires fits { (degree ≤ 25) × (2 * degree + 2 ≤ length flat.now) × (3 * (length flat.now - degree - 1) ≤ length poles.now) }
    requires never_falls { NeverFalls flat.now × (3 ≤ length out.old) }
    ensures { out.new ≡ put_point 0 (curve_point flat.now degree poles.now u) out.old }
{
    let q = bspline::reader::curve_point(flat, degree, poles, u);
    geometry::put_point(out, 0, q);
}

// The spacing, with the lightness factor 1.
fn metric(centripetal: bool) -> Metric
    ensures { result ≡ metric_of centripetal }
{
    let spacing = if centripetal {
        Spacing::Centripetal
    } else {
        Spacing::Chordal
    };
    Metric {
        spacing,
        factor: 1.0,
    }
}

#[unsafe(no_mangle)]
pub extern "C" fn pieces_point_parameters(
    points: &[f64],
    start: usize,
    stride: usize,
    n: usize,
    centripetal: bool,
    out: &mut [f64],
) -> bool
    requires { HasLine points.now start stride n × (n ≤ length out.old) }
    ensures { Found (point_parameters (metric_of centripetal) n (line_of points.now start stride)) n n out.old out.new result }
{
    let line = Line {
        points,
        start,
        stride,
        count: n,
    };
    knots::parameters::point_parameters(line, metric(centripetal), out).is_ok()
}

#[unsafe(no_mangle)]
pub extern "C" fn pieces_shared_parameters(
    points: &[f64],
    lines: usize,
    pitch: usize,
    n: usize,
    stride: usize,
    centripetal: bool,
    out: &mut [f64],
) -> bool
    requires { HasLines points.now lines pitch n stride × (n + n ≤ length out.old) }
    ensures { Found (shared_parameters (metric_of centripetal) lines n (lines_of points.now pitch stride)) n (n + n) out.old out.new result }
{
    let lines = Lines {
        points,
        lines,
        pitch,
        count: n,
        stride,
    };
    knots::parameters::shared_parameters(lines, metric(centripetal), out).is_ok()
}

#[unsafe(no_mangle)]
pub extern "C" fn pieces_averaged_knots(params: &[f64], degree: usize, flat: &mut [f64])
    requires { KnotRoom (length params.now) (length params.now) degree (length flat.old) }
    ensures { flat.new ≡ averaged_knots params.now degree }
{
    knots::clamped::averaged_knots(params, degree, flat);
}

#[unsafe(no_mangle)]
pub extern "C" fn pieces_approximation_knots(
    params: &[f64],
    poles: usize,
    degree: usize,
    flat: &mut [f64],
)
    requires { KnotRoom (length params.now) poles degree (length flat.old) }
    ensures { flat.new ≡ approximation_knots params.now poles degree }
{
    knots::clamped::approximation_knots(params, poles, degree, flat);
}

#[unsafe(no_mangle)]
pub extern "C" fn pieces_compress_knots(flat: &[f64], knots: &mut [f64], mults: &mut [u32]) -> usize
    requires { HasRoom flat.now knots.old mults.old }
    ensures { Compressed flat.now knots.old knots.new mults.old mults.new result }
{
    knots::runs::compress_knots(flat, knots, mults)
}

#[unsafe(no_mangle)]
pub extern "C" fn pieces_factor_symmetric_band(
    lower: &mut [f64],
    h: usize,
    n: usize,
    relative: f64,
) -> bool
    requires { (h ≤ 25) × (n * (h + 1) ≤ length lower.old) }
    ensures { outcome result lower.new ≡ factor_symmetric_band h n relative lower.old }
{
    cholesky::factor_symmetric_band(lower, h, n, relative).is_some()
}

#[unsafe(no_mangle)]
pub extern "C" fn pieces_substitute_symmetric_band(
    lower: &[f64],
    poles: &mut [f64],
    h: usize,
    n: usize,
)
    requires { HasSystem (h + 1) h n lower.now poles.old }
    ensures { poles.new ≡ substitute_symmetric_band h n lower.now poles.old }
{
    cholesky::substitute_symmetric_band(lower, poles, h, n);
}

#[unsafe(no_mangle)]
pub extern "C" fn pieces_factor_band(band: &mut [f64], h: usize, n: usize)
    requires { (h ≤ 25) × (n * (2 * h + 1) ≤ length band.old) }
    ensures { band.new ≡ factor_band h n band.old }
{
    lu::factor_band(band, h, n);
}

#[unsafe(no_mangle)]
pub extern "C" fn pieces_substitute_band(band: &[f64], poles: &mut [f64], h: usize, n: usize)
    requires { HasSystem (2 * h + 1) h n band.now poles.old }
    ensures { poles.new ≡ substitute_band h n band.now poles.old }
{
    lu::substitute_band(band, poles, h, n);
}
