// Copies kept in lent words, two words each: where a block stood and where it is placed.
ghost use Rattle.std.specs.Prelude.{◌≡◌, true, false, ◌+◌, ◌*◌, ◌/◌, ◌%◌, ◌≤◌, ◌<◌, length, get_or, set};
ghost use Rattle.plan.specs.Geometry.{align8};
ghost use Rattle.plan.specs.Copies.{copy_of, with_copy};
ghost use Rattle.copier.specs.Standing.{copies_in, standing, Room, Ready, Past};
ghost use Rattle.copier.specs.Answer.{found_of, link_of};
ghost use Rattle.copier.specs.Index.{Indexed, Indexes};

use index::enter_at;

// How many copies stand in the words, and the end of what is placed.
#[derive(Clone, Copy, Debug, PartialEq, Eq)]
pub struct Copying {
    pub used: u64,
    pub next: u64,
}

// How many blocks of a chain were met, and what stands after them.
#[derive(Clone, Copy, Debug, PartialEq, Eq)]
pub struct Chain {
    pub count: u64,
    pub state: Copying,
}

// The place of the copy of a among those of the words.
fn find(memo: &[u64], a: u64) -> Option<u64>
    ensures { found_of result ≡ copy_of a (copies_in memo.now (length memo.now / 2)) }
{
    for i in 0..memo.len() / 2 {
        if memo[2 * i] == a {
            return Some(memo[2 * i + 1]);
        }
    }
    None
}

// The place of the copy of a, by the index: the last that is met in its chain.
pub(crate) fn find_in(memo: &[u64], index: &[u16; 4096], used: u64, a: u64) -> Option<u64>
    requires { (used ≤ 2050) × (2 * used ≤ length memo.now) }
    ensures { Indexed memo.now used index.now
        → found_of result ≡ copy_of a (copies_in memo.now used) }
{
    let most = used as usize;
    let mut i = usize::from(index[2050 + (a % 2039) as usize]);
    let mut hit: usize = 0;
    while 0 < i {
        if most < i {
            return None;
        }
        if memo[2 * (i - 1)] == a {
            hit = i;
        }
        let older = usize::from(index[i - 1]);
        if i <= older {
            return None;
        }
        i = older;
    }
    if hit == 0 {
        return None;
    }
    Some(memo[2 * hit - 1])
}

// A link to a, led to its copy: 0 where a isn't copied. A word past the end counts as 0.
pub fn new_link(memo: &[u64], used: u64, a: u64) -> u64
    ensures { result ≡ link_of (copy_of a (copies_in memo.now used)) }
{
    let n = (memo.len() / 2) as u64;
    find(&memo[..2 * used.min(n) as usize], a).unwrap_or(0)
}

// The index of the first copies of the words, as many as it has room for.
pub fn index_copies(memo: &[u64], used: u64) -> [u16; 4096]
    ensures { Indexes memo.now used result }
{
    let mut index = [0u16; 4096];
    if 2050 < used || ((memo.len() / 2) as u64) < used {
        return index;
    }
    for n in 0..used {
        enter_at::<2050>(&mut index, n, memo[(2 * n) as usize]);
    }
    index
}

// The same link by the index of these copies.
pub fn link_by(memo: &[u64], index: &[u16; 4096], used: u64, a: u64) -> u64
    ensures { Indexes memo.now used index.now
        → result ≡ link_of (copy_of a (copies_in memo.now used)) }
{
    if 2050 < used || ((memo.len() / 2) as u64) < used {
        return new_link(memo, used, a);
    }
    find_in(memo, index, used, a).unwrap_or(0)
}

// The next multiple of 8, where it fits.
pub fn aligned(x: u64) -> u64
    ensures { x < 9223372036854775808 → result ≡ align8 x }
{
    if 9223372036854775807 < x {
        return x;
    }
    (x + 7) / 8 * 8
}

// Whether copying can begin: there are 8,192 words, no more than 2,050 copies are allowed or stand, and what is placed
// leaves room for them.
pub(crate) fn is_ready(memo: &[u64], most: u64, state: Copying) -> bool
    ensures yes { result ≡ true → Ready memo.now most state }
    ensures no { result ≡ false → Ready memo.now most state → ⊥ }
{
    if memo.len() < 8192 {
        return false;
    }
    if 2050 < most {
        return false;
    }
    if 2050 < state.used {
        return false;
    }
    if 576460752303423488 < state.next {
        return false;
    }
    true
}

// One copy more, of the block of so many bytes at a, after what is placed.
pub(crate) fn place(
    memo: &mut [u64],
    index: &mut [u16; 4096],
    a: u64,
    size: u64,
    state: Copying,
) -> Copying
    requires { (state.used < 2050) × (4100 ≤ length memo.old)
        × Room state.used state.next × (size ≤ 268435456) × Indexed memo.old state.used index.old }
    ensures copied { standing memo.new result ≡ with_copy a size (standing memo.old state) }
    ensures past { Past (2 * result.used) memo.old memo.new }
    ensures indexed { Indexed memo.new result.used index.new }
{
    let used = state.used;
    let at = (used * 2) as usize;
    let to = aligned(state.next);
    memo[at] = a;
    memo[at + 1] = to;
    enter_at::<2050>(index, used, a);
    Copying {
        used: used + 1,
        next: to + size,
    }
}
