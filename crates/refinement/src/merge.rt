// Two sorted lists merged from the back, in linear time.
ghost use Rattle.std.specs.Prelude.{◌≡◌, ◌+◌, ◌-◌, ◌<◌, ◌≤◌, true, false, ◌++◌, length, take, drop};
ghost use Rattle.geometry.specs.Doubles.{at};
ghost use Rattle.geometry.specs.Order.{rank_of, sorted_onto, sorted, Ascending};

// Whether v goes behind a sorted list.
fn goes_last(list: &[f64], v: f64) -> bool
    ensures last { result ≡ true → 0 < length list.now → rank_of (at list.now (length list.now - 1)) ≤ rank_of v }
    ensures not_last { result ≡ false → (0 < length list.now) × (rank_of v < rank_of (at list.now (length list.now - 1))) }
{
    match list.last() {
        None => true,
        Some(last) => geometry::order::rank(*last) <= geometry::order::rank(v),
    }
}

// The first l values of `flat` and all of `fresh`, both sorted, are merged from the back, into the first places of `flat`.
// The old ones that rank above a new one move up; by place, since they are read and written in one list.
fn merge_back(flat: &mut [f64], l: usize, fresh: &[f64])
    requires room { l + length fresh.now ≤ length flat.old }
    requires ascending { Ascending (take l flat.old) × Ascending fresh.now }
    ensures { flat.new ≡ sorted_onto (take l flat.old) fresh.now ++ drop (l + length fresh.now) flat.old }
{
    let mut i = l;
    for (j, v) in fresh.iter().enumerate().rev() {
        while !goes_last(&flat[..i], *v) {
            flat[i + j] = flat[i - 1];
            i -= 1;
        }
        flat[i + j] = *v;
    }
}

// The first l values of `flat` take in those of `fresh`, and both are sorted; in linear time where both were sorted before.
pub fn take_in(flat: &mut [f64], l: usize, fresh: &mut [f64])
    requires { l + length fresh.old ≤ length flat.old }
    ensures all { flat.new ≡ sorted (take l flat.old ++ fresh.old) ++ drop (l + length fresh.old) flat.old }
    ensures fresh_sorted { fresh.new ≡ sorted fresh.old }
{
    geometry::order::sort(&mut flat[..l]);
    geometry::order::sort(fresh);
    merge_back(flat, l, fresh);
}
