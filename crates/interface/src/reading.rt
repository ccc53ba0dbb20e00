// The reader.
ghost use Rattle.telling.specs.ToldReading.{ToldReads};

use bspline::Refusal;
use bspline::curve::Curve;

// A point of a curve: its three coordinates in the first places of `out`, or the refusal's number.
#[unsafe(no_mangle)]
pub extern "C" fn nigorzai_read(
    poles: &[f64],
    degree: usize,
    knots: &[f64],
    mults: &[u32],
    u: f64,
    out: &mut [f64],
) -> u32
    ensures { ToldReads poles.now degree knots.now mults.now u out.old out.new result }
{
    if out.len() < 3 {
        return Refusal::BufferTooShort.number();
    }
    let curve = Curve {
        poles,
        degree,
        knots,
        mults,
    };
    match curve.read(u) {
        Err(c) => c.number(),
        Ok(q) => {
            geometry::put_point(out, 0, q);
            0
        }
    }
}
