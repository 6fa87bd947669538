// The metadata copier: it calls itself on each link, the depth left falls from 65, and the words say what is copied.
ghost use Rattle.std.specs.Prelude.{◌≡◌, ◌+◌, ◌*◌, ◌-◌, ◌≤◌, length, drop};
ghost use Rattle.mdf.specs.Block.{links_at};
ghost use Rattle.plan.specs.Copies.{is_copied, lost_links, copy_links, copy_at, copy_root};
ghost use Rattle.copier.specs.Standing.{copies_in, standing};
ghost use Rattle.copier.specs.Begin.{begin_at};
ghost use Rattle.copier.specs.Got.{begun_of, Copied, AfterGot, IndexedGot, MayCopy};
ghost use Rattle.copier.specs.Index.{Indexed};

use crate::memo::{Copying, find_in, place};
use blocks::block::{MD, TX, kind_at, links_at, size_at, whole_at};
use fields::field_at;
use fields::refusal::Refusal;

pub const CC: u64 = 1128473379;

pub const SI: u64 = 1230185251;

pub const FH: u64 = 1212556067;

// TX, MD, CC, SI, FH.
pub fn is_copied(kind: u64) -> bool
    ensures { result ≡ is_copied kind }
{
    [TX, MD, CC, SI, FH].contains(&kind)
}

// The links that the block at a loses in front: the first of an FH.
pub fn lost_links(image: &[u8], a: u64) -> u64
    ensures { result ≡ lost_links image.now a }
{
    if kind_at(image, a) == FH { 1 } else { 0 }
}

// The number of links of the block at a that are followed.
pub fn links_left(image: &[u8], a: u64) -> u64
    ensures { result ≡ links_at image.now a - lost_links image.now a }
{
    links_at(image, a).saturating_sub(lost_links(image, a))
}

// Whether the links of the block at a are to be followed, with the blocks on the way down from index left on, the
// nearest first: not for 0 and for a block that is copied, 16, then the block's own checks (4, 8, 9, 4), not for
// another kind, 19.
fn begin(
    image: &[u8],
    memo: &[u64],
    index: &[u16; 4096],
    way: &[u64; 65],
    a: u64,
    left: u64,
    most: u64,
    used: u64,
) -> Result<bool, Refusal>
    requires { (used ≤ 2050) × (2 * used ≤ length memo.now) × (left ≤ 65) × Indexed memo.now used index.now }
    ensures { begun_of result ≡ begin_at most left image.now (drop left way.now) a
        (copies_in memo.now used) }
{
    if a == 0 {
        return Ok(false);
    }
    if find_in(memo, index, used, a).is_some() {
        return Ok(false);
    }
    if left == 0 {
        return Err(Refusal::NotCopied(a));
    }
    if way[left as usize..].contains(&a) {
        return Err(Refusal::NotCopied(a));
    }
    whole_at(image, a)?;
    if !is_copied(kind_at(image, a)) {
        return Ok(false);
    }
    if used + (65 - left) < most {
        return Ok(true);
    }
    Err(Refusal::OverLimit(a))
}

// The block at a and all that it links to, with the blocks on the way down in `way` from index left on.
pub(crate) fn copy(
    image: &[u8],
    memo: &mut [u64],
    index: &mut [u16; 4096],
    way: [u64; 65],
    a: u64,
    left: u64,
    most: u64,
    state: Copying,
) -> Result<Copying, Refusal>
    requires { (left ≤ 65) × (state.used + 65 ≤ 2050 + left) × MayCopy memo.old most state index.old }
    ensures copied { Copied memo.old memo.new result
        (copy_at most left image.now (drop left way) a (standing memo.old state)) }
    ensures indexed { IndexedGot result memo.new index.new }
{
    let follows = begin(image, memo, index, &way, a, left, most, state.used)?;
    if !follows {
        return Ok(state);
    }
    let mut down = way;
    down[(left - 1) as usize] = a;
    let links = links_left(image, a);
    let p = a + 24 + 8 * lost_links(image, a);
    let mut st = state;
    for i in 0..links {
        let link = field_at::<8>(image, p + 8 * i);
        st = copy(image, memo, index, down, link, left - 1, most, st)?;
    }
    let size = size_at(image, a);
    Ok(place(memo, index, a, size, st))
}

// The block at a, from outside of any copied block.
pub(crate) fn copy_root(
    image: &[u8],
    memo: &mut [u64],
    index: &mut [u16; 4096],
    a: u64,
    most: u64,
    state: Copying,
) -> Result<Copying, Refusal>
    requires { MayCopy memo.old most state index.old }
    ensures copied { Copied memo.old memo.new result
        (copy_root most image.now a (standing memo.old state)) }
    ensures after { AfterGot result state }
    ensures indexed { IndexedGot result memo.new index.new }
{
    copy(image, memo, index, [0u64; 65], a, 65, most, state)
}

// The links that stand at p, so many of them, from outside of any copied block.
pub(crate) fn follow(
    image: &[u8],
    memo: &mut [u64],
    index: &mut [u16; 4096],
    count: u64,
    at: u64,
    most: u64,
    state: Copying,
) -> Result<Copying, Refusal>
    requires { (at + 8 * count ≤ length image.now + 8) × MayCopy memo.old most state index.old }
    ensures copied { Copied memo.old memo.new result
        (copy_links (copy_root most image.now) image.now count at
        (standing memo.old state)) }
    ensures after { AfterGot result state }
    ensures indexed { IndexedGot result memo.new index.new }
{
    let mut st = state;
    for i in 0..count {
        let link = field_at::<8>(image, at + 8 * i);
        st = copy_root(image, memo, index, link, most, st)?;
    }
    Ok(st)
}
