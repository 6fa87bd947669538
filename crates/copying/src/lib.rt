// A copied block, laid over a slice that begins at the block's place. What would lie past the slice's end is lost.
#![tactic(auto)]

pub mod history;

ghost use Rattle.std.specs.Prelude.{◌≡◌, ◌+◌, ◌*◌, ◌-◌, ◌≤◌, min, length};
ghost use Rattle.std.proofs.Math.Option.{none};
ghost use Rattle.base.specs.Blit.{blit, part};
ghost use Rattle.mdf.specs.Block.{size_at, links_at};
ghost use Rattle.work_words.specs.CopyWords.{history_at};
ghost use Rattle.copier.specs.Standing.{copies_in};
ghost use Rattle.copier.specs.Index.{Indexes};
ghost use Rattle.copying.specs.ChainIndex.{ChainIndexes};
ghost use Rattle.result.specs.Fill.{new_links, history_link, first_new, copied_links, data_of, copied_bytes, at_bytes};

use blocks::block::{data_at, kind_at, link_at, links_at, size_at};
use copier::memo::link_by;
use history::place_in;
use puts::{copy, header, put_u64};

const FH: u64 = 1212556067;

// The copies that stand in words, by their index, and the image that they are of.
#[derive(Clone, Copy)]
pub struct Copies<'a> {
    pub image: &'a [u8],
    pub memo: &'a [u64],
    pub index: &'a [u16; 4096],
    pub used: u64,
}

// The history: the index of its chain, the chain's words, the new FH's place.
#[derive(Clone, Copy)]
pub struct HistoryChain<'a> {
    pub chained: &'a [u16; 4096],
    pub chain: u64,
    pub fh: u64,
}

// k links of the block at a, from the second on, led to the copies, at index at.
fn put_links(d: &mut [u8], at: usize, copies: Copies<'_>, a: u64, k: u64)
    requires { at ≤ 32 }
    ensures { Indexes copies.entry.memo.now copies.entry.used copies.entry.index.now
        → d.new ≡ blit at (new_links copies.entry.image.now (copies_in copies.entry.memo.now copies.entry.used) k (a + 32)) d.old }
{
    if d.len() <= at {
        return;
    }
    for i in 0..k {
        let p = at + 8 * i as usize;
        let old = link_at(copies.image, a, 1 + i);
        let new = link_by(copies.memo, copies.index, copies.used, old);
        put_u64(d, p, new);
        if d.len() - p <= 8 {
            return;
        }
    }
}

// The index past the words of the history chain, as many as there are.
fn chain_end(memo: &[u64], chain: u64) -> usize
    ensures { result ≡ history_at + min chain (length memo.now - history_at) }
{
    let left = memo.len().saturating_sub(4352) as u64;
    4352 + chain.min(left) as usize
}

// The first link of a block that isn't one of the history chain.
fn own_link(copies: Copies<'_>, a: u64) -> u64
    ensures { Indexes copies.entry.memo.now copies.entry.used copies.entry.index.now
        → result ≡ first_new copies.entry.image.now (copies_in copies.entry.memo.now copies.entry.used) a none }
{
    if kind_at(copies.image, a) == FH {
        return 0;
    }
    link_by(
        copies.memo,
        copies.index,
        copies.used,
        link_at(copies.image, a, 0),
    )
}

// The first link of the copy of the block at a: a block of the history chain leads to the copy of the next, the last to the new FH.
// The block is sought from the chain's front.
fn sought_link(copies: Copies<'_>, history: HistoryChain<'_>, a: u64) -> u64
    ensures { Indexes copies.entry.memo.now copies.entry.used copies.entry.index.now
        → result ≡ first_new copies.entry.image.now (copies_in copies.entry.memo.now copies.entry.used) a
        (history_link a (part history_at history.entry.chain copies.entry.memo.now) (copies_in copies.entry.memo.now copies.entry.used) history.entry.fh) }
{
    let memo = copies.memo;
    let end = chain_end(memo, history.chain);
    for i in 4352..end {
        if memo[i] == a {
            if end - i == 1 {
                return history.fh;
            }
            return link_by(memo, copies.index, copies.used, memo[i + 1]);
        }
    }
    own_link(copies, a)
}

// The same by the index of the chain.
pub fn first_link(copies: Copies<'_>, history: HistoryChain<'_>, a: u64) -> u64
    ensures { Indexes copies.entry.memo.now copies.entry.used copies.entry.index.now
        → ChainIndexes copies.entry.memo.now history.entry.chain history.entry.chained.now
        → result ≡ first_new copies.entry.image.now (copies_in copies.entry.memo.now copies.entry.used) a
        (history_link a (part history_at history.entry.chain copies.entry.memo.now) (copies_in copies.entry.memo.now copies.entry.used) history.entry.fh) }
{
    let memo = copies.memo;
    let chain = history.chain;
    if 2048 < chain || memo.len() < 6400 {
        return sought_link(copies, history, a);
    }
    let i = place_in(memo, history.chained, chain, a);
    let left = chain as usize - i;
    if left == 0 {
        return own_link(copies, a);
    }
    if left == 1 {
        return history.fh;
    }
    link_by(memo, copies.index, copies.used, memo[4352 + i + 1])
}

// The links of the copy of the block at a, n of them.
fn put_copied_links(d: &mut [u8], copies: Copies<'_>, history: HistoryChain<'_>, a: u64, n: u64)
    ensures { Indexes copies.entry.memo.now copies.entry.used copies.entry.index.now
        → ChainIndexes copies.entry.memo.now history.entry.chain history.entry.chained.now
        → d.new ≡ blit 24 (copied_links copies.entry.image.now (part history_at history.entry.chain copies.entry.memo.now)
        (copies_in copies.entry.memo.now copies.entry.used) history.entry.fh a n) d.old }
{
    if n == 0 {
        return;
    }
    put_u64(d, 24, first_link(copies, history, a));
    put_links(d, 32, copies, a, n - 1);
}

// How many bytes of data the block at a has; as in filling, which stands beside this crate.
pub fn data_size(image: &[u8], a: u64) -> u64
    ensures { result ≡ size_at image.now a - (24 + 8 * links_at image.now a) }
{
    let links = links_at(image, a);
    size_at(image, a).saturating_sub(links.saturating_mul(8).saturating_add(24))
}

// The data of the block at a, past n links that stand at index at.
pub fn put_data(d: &mut [u8], at: usize, n: u64, image: &[u8], a: u64)
    ensures { d.new ≡ blit (at + 8 * n) (data_of image.now a) d.old }
{
    let room = d.len();
    if room <= at || ((room - at) as u64) / 8 < n {
        return;
    }
    let size = data_size(image, a);
    let from = data_at(image, a);
    copy(d, at + 8 * n as usize, image, from, size);
}

// The copy of the block at a, with its links led to the copies by their index; chain words of the history, their index and the new FH's place.
pub fn put_copied(d: &mut [u8], copies: Copies<'_>, history: HistoryChain<'_>, a: u64)
    ensures { Indexes copies.entry.memo.now copies.entry.used copies.entry.index.now
        → ChainIndexes copies.entry.memo.now history.entry.chain history.entry.chained.now
        → d.new ≡ blit 0 (copied_bytes copies.entry.image.now (part history_at history.entry.chain copies.entry.memo.now)
        (copies_in copies.entry.memo.now copies.entry.used) history.entry.fh a) d.old }
{
    let image = copies.image;
    let links = links_at(image, a);
    header(d, kind_at(image, a), size_at(image, a), links);
    put_copied_links(d, copies, history, a, links);
    put_data(d, 24, links, image, a);
}

// How many bytes of the header of the block at a lie in the image.
pub fn header_size(image: &[u8], a: u64) -> usize
    ensures { result ≡ min 24 (length image.now - a) }
{
    (image.len() as u64).saturating_sub(a).min(24) as usize
}

// The number of links of the block at a past the first.
pub fn more_links(image: &[u8], a: u64) -> u64
    ensures { result ≡ links_at image.now a - 1 }
{
    links_at(image, a).saturating_sub(1)
}

// The AT at a with its links led to the copies by their index, the first to the next AT.
pub fn put_at(d: &mut [u8], copies: Copies<'_>, a: u64, next: u64)
    ensures { Indexes copies.entry.memo.now copies.entry.used copies.entry.index.now
        → d.new ≡ blit 0 (at_bytes copies.entry.image.now (copies_in copies.entry.memo.now copies.entry.used) a next) d.old }
{
    let image = copies.image;
    let n = header_size(image, a);
    let links = more_links(image, a);
    copy(d, 0, image, a, 24);
    put_u64(d, n, next);
    put_links(d, n + 8, copies, a, links);
    put_data(d, n + 8, links, image, a);
}
