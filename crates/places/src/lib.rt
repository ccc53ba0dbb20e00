// Lists by their places. The vocabulary of loops, places and regions is in specs/, its laws in proofs/.
#![tactic(auto)]

ghost use Rattle.std.specs.Prelude.{◌≡◌, ◌++◌, ◌≤◌, length, drop};

// Copies `from` into the first places of `to`; the others stay. By number, and by no method of the library: with `copy_from_slice` the archives for C would need `memmove` from outside.
pub fn copy(from: &[f64], to: &mut [f64])
    requires { length from.now ≤ length to.old }
    ensures { to.new ≡ from.now ++ drop (length from.now) to.old }
{
    for k in 0..from.len() {
        to[k] = from[k];
    }
}
