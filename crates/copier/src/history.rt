// The history chain: its blocks are copied, and their addresses kept in the words from 4352 on.
ghost use Rattle.std.specs.Prelude.{◌≡◌, ◌≤◌, length};
ghost use Rattle.mdf.specs.Chain.{is_in};
ghost use Rattle.plan.specs.Copies.{history_of};
ghost use Rattle.copier.specs.Standing.{standing, Room, Ready};
ghost use Rattle.copier.specs.Got.{begun_of, MayCopy};
ghost use Rattle.copier.specs.History.{goes_on, chain_in, Chained, ChainCopied, start, Begins};
ghost use Rattle.copier.specs.Index.{Indexed};

use crate::copies::{copy_root, is_copied};
use crate::memo::{Chain, Copying, find_in, is_ready};
use blocks::block::{first_link, kind_at, link_at, links_at, whole_at};
use fields::refusal::Refusal;

// Whether a is one of the chain's blocks so far; what isn't copied is none of them.
fn is_met(memo: &[u64], index: &[u16; 4096], used: u64, a: u64, count: u64) -> bool
    requires { (count ≤ 2051) × (8192 ≤ length memo.now) × (used ≤ 2050)
        × Indexed memo.now used index.now × ChainCopied memo.now count used }
    ensures { result ≡ is_in a (chain_in memo.now count) }
{
    find_in(memo, index, used, a).is_some() && memo[4352..(4352 + count) as usize].contains(&a)
}

// Whether the chain goes on at a: it ends at 0, at a block met before and at a kind not copied; the block's own checks
// (4, 8, 9, 4); 17.
fn goes_on(
    image: &[u8],
    memo: &[u64],
    index: &[u16; 4096],
    used: u64,
    a: u64,
    count: u64,
) -> Result<bool, Refusal>
    requires { (count ≤ 2051) × (8192 ≤ length memo.now) × (used ≤ 2050)
        × Indexed memo.now used index.now × ChainCopied memo.now count used }
    ensures { begun_of result ≡ goes_on image.now a (chain_in memo.now count) }
{
    if a == 0 {
        return Ok(false);
    }
    if is_met(memo, index, used, a, count) {
        return Ok(false);
    }
    whole_at(image, a)?;
    if !is_copied(kind_at(image, a)) {
        return Ok(false);
    }
    if links_at(image, a) == 0 {
        return Err(Refusal::HistoryWithoutLinks(a));
    }
    Ok(true)
}

// The chain from a on, each block copied from outside of any copied block.
fn history_chain(
    image: &[u8],
    memo: &mut [u64],
    index: &mut [u16; 4096],
    a: u64,
    most: u64,
    state: Copying,
) -> Result<Chain, Refusal>
    requires { MayCopy memo.old most state index.old }
    ensures { Chained memo.old memo.new state result
        (history_of most image.now a (standing memo.old state)) }
{
    let mut at = a;
    let mut st = state;
    for count in 0..most + 1 {
        let goes = goes_on(image, memo, index, st.used, at, count)?;
        if !goes {
            return Ok(Chain { count, state: st });
        }
        st = copy_root(image, memo, index, at, most, st)?;
        memo[(4352 + count) as usize] = at;
        at = first_link(image, at);
    }
    Ok(Chain {
        count: most + 1,
        state: st,
    })
}

// The HD comment, then the history chain, with at most so many copies; 1 where copying can't begin (`Ready`).
pub fn first_copies(image: &[u8], memo: &mut [u64], most: u64) -> Result<Chain, Refusal>
    ensures { Ready memo.old most start
        → Begins most image.now memo.old memo.new result }
{
    let start = Copying { used: 0, next: 168 };
    if !is_ready(memo, most, start) {
        return Err(Refusal::Arguments);
    }
    let mut index = [0u16; 4096];
    let comment = copy_root(image, memo, &mut index, link_at(image, 64, 5), most, start)?;
    history_chain(
        image,
        memo,
        &mut index,
        link_at(image, 64, 1),
        most,
        comment,
    )
}
