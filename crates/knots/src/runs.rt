// Flat knots as distinct knots with multiplicities: runs of equal neighbours (`compress_knots`).
ghost use Rattle.knots.specs.Calls.{HasRoom, Compressed};

// The distinct knots and their multiplicities, in the first places of `knots` and `mults`; how many they are.
pub fn compress_knots(flat: &[f64], knots: &mut [f64], mults: &mut [u32]) -> usize
    requires { HasRoom flat.now knots.old mults.old }
    ensures { Compressed flat.now knots.old knots.new mults.old mults.new result }
{
    // k runs are written, and the next begins at start
    let mut k = 0;
    let mut start = 0;
    for i in 1..flat.len() {
        if flat[start] != flat[i] {
            knots[k] = flat[start];
            mults[k] = (i - start) as u32;
            k += 1;
            start = i;
        }
    }
    if start < flat.len() {
        knots[k] = flat[start];
        mults[k] = (flat.len() - start) as u32;
        k += 1;
    }
    k
}
