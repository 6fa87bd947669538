// An index of addresses that stand in words: a search goes over those of one remainder only. Where many share one it is slower, not wrong.
#![tactic(auto)]

ghost use Rattle.std.specs.Prelude.{◌≡◌, ◌+◌, ◌%◌, ◌≤◌, ◌<◌, length, get_or, take, set};
ghost use Rattle.mdf.specs.Chain.{is_in};
ghost use Rattle.index.specs.Index.{entered, Indexed};

// Address number n, a, becomes the newest of its chain; the chains' heads stand from HEADS on. Where these or n have no room, the index stays.
pub fn enter_at<const HEADS: usize>(index: &mut [u16; 4096], n: u64, a: u64)
    ensures { index.new ≡ entered HEADS n a index.old }
{
    if 2057 < HEADS || HEADS as u64 <= n {
        return;
    }
    let head = HEADS + (a % 2039) as usize;
    index[n as usize] = index[head];
    index[head] = (n + 1) as u16;
}

// The same with heads from 2048 on, where the index has room for it.
pub fn enter(index: &mut [u16; 4096], n: u64, a: u64)
    ensures { n < 2048 → index.new
        ≡ set (set index.old n (get_or index.old (2048 + a % 2039) 0)) (2048 + a % 2039) (n + 1) }
{
    enter_at::<2048>(index, n, a);
}

// Whether a is one of the first n words, by their index.
pub fn is_met(words: &[u64], index: &[u16; 4096], n: u64, a: u64) -> bool
    ensures { n ≤ 2048 → n ≤ length words.now → Indexed 1 words.now n index.now
        → result ≡ is_in a (take n words.now) }
{
    let mut i = usize::from(index[2048 + (a % 2039) as usize]);
    while 0 < i {
        if 2048 < i {
            return false;
        }
        if words.len() < i {
            return false;
        }
        if words[i - 1] == a {
            return true;
        }
        let older = usize::from(index[i - 1]);
        if i <= older {
            return false;
        }
        i = older;
    }
    false
}
