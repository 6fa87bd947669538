// The bytes of fragments, out of the words in which they are kept.
ghost use Rattle.std.specs.Prelude.{◌≡◌, min};
ghost use Rattle.planning.specs.Sizes.{sizes_from, signal_size};

use crate::words::word;

// The sizes of n fragments from number i on, at most 2^64 - 1; one past the end has none.
fn sizes_from(fragments: &[u64], i: u64, n: u64) -> u64
    ensures { result ≡ min (sizes_from fragments.now i n) 18446744073709551615 }
{
    let words = fragments.len() as u64;
    let all = words / 3 + words % 3 / 2;
    let mut k = i;
    let mut left = n;
    let mut sum: u64 = 0;
    while 0 < left {
        if all <= k {
            return sum;
        }
        let more = word(fragments, 3 * k + 1);
        if 18446744073709551615 - sum < more {
            return 18446744073709551615;
        }
        sum += more;
        k += 1;
        left -= 1;
    }
    sum
}

// The bytes of a column's signal data, by its words `first` and `n`, at most 2^64 - 1.
pub fn signal_size(fragments: &[u64], first: u64, n: u64) -> u64
    ensures { result ≡ min (signal_size fragments.now first n) 18446744073709551615 }
{
    if first == 0 {
        return 0;
    }
    sizes_from(fragments, first - 1, n)
}
