// Copied blocks, one after the other.
ghost use Rattle.std.specs.Prelude.{◌≡◌, true, false, List, ℕ, ◌-◌, ◌≤◌, length};
ghost use Rattle.base.specs.Blit.{part};
ghost use Rattle.work_words.specs.CopyWords.{history_at};
ghost use Rattle.copier.specs.Standing.{copies_in};
ghost use Rattle.copier.specs.Index.{Indexes};
ghost use Rattle.copying.specs.ChainIndex.{ChainIndexes};
ghost use Rattle.result.specs.Fill.{copied_bytes, copied_blocks};
ghost use Rattle.copies_laws.specs.AnswerLaws.{Whole};
ghost use Rattle.stores.specs.Over.{over};
ghost use Rattle.windows.specs.Windowed.{over_all};
ghost use Rattle.window_copies.specs.Laying.{Wholes, Apart, Laying, Passed};

use crate::lay_copied;
use blocks::block::size_at;
use copier::memo::index_copies;
use copying::history::index_chain;
use copying::{Copies, HistoryChain};

// Whether the copy of the block at from, at index at of the file, has a byte in the window of n bytes from a on.
pub(crate) fn lies(image: &[u8], a: u64, n: u64, from: u64, at: u64) -> bool
    ensures { result ≡ false → Apart image.now a n from at }
{
    if a <= at {
        at - a < n
    } else {
        a - at < size_at(image, from)
    }
}

// The copy of the block at from, which stands at index at of the file.
fn lay_copy(w: &mut [u8], a: u64, at: u64, copies: Copies<'_>, history: HistoryChain<'_>, from: u64)
    ensures { Indexes copies.entry.memo.now copies.entry.used copies.entry.index.now → ChainIndexes copies.entry.memo.now history.entry.chain history.entry.chained.now
        → Whole copies.entry.image.now from → w.new ≡ over a at (copied_bytes copies.entry.image.now (part history_at history.entry.chain copies.entry.memo.now)
        (copies_in copies.entry.memo.now copies.entry.used) history.entry.fh from) w.old }
{
    if lies(copies.image, a, w.len() as u64, from, at) {
        lay_copied(w, a, at, copies, history, from);
    }
}

// The first of the copies number from up to to that has a byte in the window of n bytes from a on; to where none has.
pub(crate) fn first_in(image: &[u8], memo: &[u64], a: u64, n: u64, from: u64, to: u64) -> u64
    requires { (to ≤ 2050) × (4100 ≤ length memo.now) }
    ensures { Passed image.now memo.now a n to from result }
{
    for i in from..to {
        let j = (2 * i) as usize;
        if lies(image, a, n, memo[j], memo[j + 1]) {
            return i;
        }
    }
    to
}

// The copies number from up to to of those in the words; their index and that of the history chain are there.
pub(crate) fn lay_copies_by(
    w: &mut [u8],
    a: u64,
    copies: Copies<'_>,
    history: HistoryChain<'_>,
    from: u64,
    to: u64,
)
    requires { (to ≤ 2050) × (4100 ≤ length copies.memo.now) }
    ensures { (g : List ℕ) → Indexes copies.entry.memo.now copies.entry.used copies.entry.index.now → ChainIndexes copies.entry.memo.now history.entry.chain history.entry.chained.now
        → Laying copies.entry.image.now copies.entry.memo.now (part history_at history.entry.chain copies.entry.memo.now) (copies_in copies.entry.memo.now copies.entry.used) history.entry.fh a to g
        from w.old → w.new ≡ g }
{
    for i in from..to {
        let j = (2 * i) as usize;
        let b = copies.memo[j];
        let at = copies.memo[j + 1];
        lay_copy(w, a, at, copies, history, b);
    }
}

// The same by indices made for them. Apart in the machine code: a function clears its arrays where it begins, and most windows hold no copy.
#[inline(never)]
fn lay_indexed(
    w: &mut [u8],
    a: u64,
    image: &[u8],
    memo: &[u64],
    used: u64,
    chain: u64,
    fh: u64,
    from: u64,
    to: u64,
)
    requires { (to ≤ 2050) × (4100 ≤ length memo.now) }
    ensures { (g : List ℕ) → Laying image.now memo.now (part history_at chain memo.now) (copies_in memo.now used) fh a to g from w.old → w.new ≡ g }
{
    let index = index_copies(memo, used);
    let chained = index_chain(memo, chain);
    let copies = Copies {
        image,
        memo,
        index: &index,
        used,
    };
    let history = HistoryChain {
        chained: &chained,
        chain,
        fh,
    };
    lay_copies_by(w, a, copies, history, from, to);
}

// The copies number from up to to of those in the words, from the first that has a byte in the window; nothing where the words aren't there.
pub fn lay_copies(
    w: &mut [u8],
    a: u64,
    image: &[u8],
    memo: &[u64],
    used: u64,
    chain: u64,
    fh: u64,
    from: u64,
    to: u64,
)
    ensures { from ≤ to → to ≤ used → to ≤ 2050 → 4100 ≤ length memo.now
        → Wholes image.now (part from (to - from) (copies_in memo.now used))
        → w.new ≡ over_all a (copied_blocks image.now (part history_at chain memo.now) (copies_in memo.now used) fh
        (part from (to - from) (copies_in memo.now used))) w.old }
{
    if 2050 < to || memo.len() < 4100 {
        return;
    }
    let first = first_in(image, memo, a, w.len() as u64, from, to);
    if to <= first {
        return;
    }
    lay_indexed(w, a, image, memo, used, chain, fh, first, to);
}
