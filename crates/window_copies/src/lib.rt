// Copied blocks of a file, laid over a window of it that begins at index a. What lies before the window is left out, what lies past its end is lost.
#![tactic(auto)]

pub mod attached;
pub mod copies;

ghost use Rattle.std.specs.Prelude.{◌≡◌, ◌+◌, ◌*◌, ◌-◌, ◌<◌, ◌≤◌};
ghost use Rattle.base.specs.Blit.{blit, part};
ghost use Rattle.work_words.specs.CopyWords.{history_at};
ghost use Rattle.copier.specs.Standing.{copies_in};
ghost use Rattle.copier.specs.Index.{Indexes};
ghost use Rattle.copying.specs.ChainIndex.{ChainIndexes};
ghost use Rattle.result.specs.Fill.{new_links, copied_links, data_of, copied_bytes, at_bytes};
ghost use Rattle.stores.specs.Over.{over};

use blocks::block::{data_at, kind_at, link_at, links_at, size_at};
use copier::memo::link_by;
use copying::{
    Copies, HistoryChain, data_size, first_link, header_size, more_links, put_at, put_copied,
    put_data,
};
use puts::put_u64;
use windows::{lay, lay_header, lay_u64};

// The links number first up to k of the block at from, led to the copies, at index at of d.
fn put_links_from(d: &mut [u8], at: usize, copies: Copies<'_>, from: u64, first: u64, k: u64)
    ensures { Indexes copies.entry.memo.now copies.entry.used copies.entry.index.now
        → d.new ≡ blit at (new_links copies.entry.image.now (copies_in copies.entry.memo.now copies.entry.used) (k - first) (from + 24 + 8 * first)) d.old }
{
    if d.len() <= at {
        return;
    }
    let mut p = at;
    for i in first..k {
        let old = link_at(copies.image, from, i);
        let new = link_by(copies.memo, copies.index, copies.used, old);
        put_u64(d, p, new);
        if d.len() - p <= 8 {
            return;
        }
        p += 8;
    }
}

// The links of the block at from but the first, of k in all, led to the copies; they stand at index at of the file.
fn lay_links(w: &mut [u8], a: u64, at: u64, copies: Copies<'_>, from: u64, k: u64)
    ensures { Indexes copies.entry.memo.now copies.entry.used copies.entry.index.now
        → w.new ≡ over a at (new_links copies.entry.image.now (copies_in copies.entry.memo.now copies.entry.used) (k - 1) (from + 32)) w.old }
{
    if a <= at {
        put_links_from(w, (at - a) as usize, copies, from, 1, k);
        return;
    }
    let before = (a - at) / 8;
    let i = before + 1;
    if k <= i {
        return;
    }
    let old = link_at(copies.image, from, i);
    let new = link_by(copies.memo, copies.index, copies.used, old);
    lay_u64(w, a, at + 8 * before, new);
    put_links_from(w, (8 - (a - at) % 8) as usize, copies, from, i + 1, k);
}

// The data of the block at from, past k links that stand at index at of the file.
fn lay_data(w: &mut [u8], a: u64, at: u64, k: u64, image: &[u8], from: u64)
    ensures { w.new ≡ over a (at + 8 * k) (data_of image.now from) w.old }
{
    if a <= at {
        put_data(w, (at - a) as usize, k, image, from);
        return;
    }
    let before = (a - at) / 8;
    if k <= before {
        let size = data_size(image, from);
        let begin = data_at(image, from);
        lay(w, a, at + 8 * k, image, begin, size);
        return;
    }
    put_data(
        w,
        (8 - (a - at) % 8) as usize,
        k - (before + 1),
        image,
        from,
    );
}

// The n links of the copy of the block at from, over a window that begins at its byte a.
fn lay_copied_links(
    w: &mut [u8],
    a: u64,
    copies: Copies<'_>,
    history: HistoryChain<'_>,
    from: u64,
    n: u64,
)
    ensures { Indexes copies.entry.memo.now copies.entry.used copies.entry.index.now → ChainIndexes copies.entry.memo.now history.entry.chain history.entry.chained.now
        → w.new ≡ over a 24 (copied_links copies.entry.image.now (part history_at history.entry.chain copies.entry.memo.now)
        (copies_in copies.entry.memo.now copies.entry.used) history.entry.fh from n) w.old }
{
    if n == 0 {
        return;
    }
    lay_u64(w, a, 24, first_link(copies, history, from));
    lay_links(w, a, 32, copies, from, n);
}

// The copy of the block at from, over a window that begins at its byte a.
fn lay_inside(w: &mut [u8], a: u64, copies: Copies<'_>, history: HistoryChain<'_>, from: u64)
    ensures { Indexes copies.entry.memo.now copies.entry.used copies.entry.index.now → ChainIndexes copies.entry.memo.now history.entry.chain history.entry.chained.now
        → w.new ≡ over a 0 (copied_bytes copies.entry.image.now (part history_at history.entry.chain copies.entry.memo.now)
        (copies_in copies.entry.memo.now copies.entry.used) history.entry.fh from) w.old }
{
    let links = links_at(copies.image, from);
    lay_header(
        w,
        a,
        0,
        kind_at(copies.image, from),
        size_at(copies.image, from),
        links,
    );
    lay_copied_links(w, a, copies, history, from, links);
    lay_data(w, a, 24, links, copies.image, from);
}

// The copy of the block at from of the image, with its links led to the copies by their index, which stands at index at of the file.
pub fn lay_copied(
    w: &mut [u8],
    a: u64,
    at: u64,
    copies: Copies<'_>,
    history: HistoryChain<'_>,
    from: u64,
)
    ensures { Indexes copies.entry.memo.now copies.entry.used copies.entry.index.now → ChainIndexes copies.entry.memo.now history.entry.chain history.entry.chained.now
        → w.new ≡ over a at (copied_bytes copies.entry.image.now (part history_at history.entry.chain copies.entry.memo.now)
        (copies_in copies.entry.memo.now copies.entry.used) history.entry.fh from) w.old }
{
    if at < a {
        lay_inside(w, a - at, copies, history, from);
        return;
    }
    let p = (at - a) as usize;
    if w.len() <= p {
        return;
    }
    put_copied(&mut w[p..], copies, history, from);
}

// The AT at from with its links led to the copies, the first to the next AT, over a window that begins at its byte a.
fn lay_at_inside(w: &mut [u8], a: u64, copies: Copies<'_>, from: u64, next: u64)
    ensures { Indexes copies.entry.memo.now copies.entry.used copies.entry.index.now
        → w.new ≡ over a 0 (at_bytes copies.entry.image.now (copies_in copies.entry.memo.now copies.entry.used) from next) w.old }
{
    let n = header_size(copies.image, from) as u64;
    let links = links_at(copies.image, from);
    let more = more_links(copies.image, from);
    lay(w, a, 0, copies.image, from, 24);
    lay_u64(w, a, n, next);
    lay_links(w, a, n + 8, copies, from, links);
    lay_data(w, a, n + 8, more, copies.image, from);
}

// The AT made of the one at from of the image, which stands at index at of the file.
pub fn lay_at(w: &mut [u8], a: u64, at: u64, copies: Copies<'_>, from: u64, next: u64)
    ensures { Indexes copies.entry.memo.now copies.entry.used copies.entry.index.now
        → w.new ≡ over a at (at_bytes copies.entry.image.now (copies_in copies.entry.memo.now copies.entry.used) from next) w.old }
{
    if at < a {
        lay_at_inside(w, a - at, copies, from, next);
        return;
    }
    let p = (at - a) as usize;
    if w.len() <= p {
        return;
    }
    put_at(&mut w[p..], copies, from, next);
}
