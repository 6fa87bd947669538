// The history chain by an index of its words, so that the place of a block in it isn't sought from its front.
ghost use Rattle.std.specs.Prelude.{◌≡◌, ◌+◌, ◌-◌, ◌≤◌, ◌<◌, length, get_or, drop};
ghost use Rattle.work_words.specs.CopyWords.{history_at};
ghost use Rattle.index.specs.Index.{Indexed};
ghost use Rattle.copying.specs.ChainIndex.{ChainIndexes, First};

use index::enter;

// The index of the chain's n words, where it has room for them.
pub fn index_chain(memo: &[u64], n: u64) -> [u16; 4096]
    ensures { ChainIndexes memo.now n result }
{
    let mut index = [0u16; 4096];
    if 2048 < n || memo.len() < 6400 {
        return index;
    }
    for i in 0..n {
        enter(&mut index, i, memo[(4352 + i) as usize]);
    }
    index
}

// The number of words of the chain in front of the first that is a; n where none is.
pub(crate) fn place_in(memo: &[u64], index: &[u16; 4096], n: u64, a: u64) -> usize
    requires { (n ≤ 2048) × (6400 ≤ length memo.now) }
    ensures within { result ≤ n }
    ensures first { Indexed 1 (drop history_at memo.now) n index.now
        → First (drop history_at memo.now) n a result }
{
    let most = n as usize;
    let mut i = usize::from(index[2048 + (a % 2039) as usize]);
    let mut hit = most;
    while 0 < i {
        if most < i {
            return most;
        }
        if memo[4352 + (i - 1)] == a {
            hit = i - 1;
        }
        let older = usize::from(index[i - 1]);
        if i <= older {
            return most;
        }
        i = older;
    }
    hit
}
