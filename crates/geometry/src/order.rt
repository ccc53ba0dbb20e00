// The total order of doubles, that of `f64::total_cmp`, and sorting by it.
ghost use Rattle.std.specs.Prelude.{◌≡◌, ◌+◌, ◌<◌, ◌++◌, length, take, drop};
ghost use Rattle.geometry.specs.Doubles.{at};
ghost use Rattle.geometry.specs.Order.{rank_of, inserted, sorted, Ascending};

// A double's rank in the total order.
pub fn rank(x: f64) -> u64
    ensures { result ≡ rank_of x }
{
    if x.is_nan() {
        return 0xfff8_0000_0000_0000;
    }
    let b = f64::to_bits(x);
    if b < 0x8000_0000_0000_0000 {
        0x8000_0000_0000_0000 + b
    } else {
        0xffff_ffff_ffff_ffff - b
    }
}

// Moves the value at place k back to its place among those before it, which are sorted.
fn sink(list: &mut [f64], k: usize)
    requires { (k < length list.old) × Ascending (take k list.old) }
    ensures { list.new ≡ inserted (at list.old k) (take k list.old) ++ drop (k + 1) list.old }
{
    let v = list[k];
    let mine = rank(v);
    let mut i = k;
    while 0 < i {
        let w = list[i - 1];
        if rank(w) <= mine {
            list[i] = v;
            return;
        }
        list[i] = w;
        i -= 1;
    }
    list[0] = v;
}

// Sorts in place, by insertion: value k goes back among those before it. (The library's sorts take no NaN by `total_cmp`.)
pub fn sort(list: &mut [f64])
    ensures { list.new ≡ sorted list.old }
{
    for k in 0..list.len() {
        sink(list, k);
    }
}
