// Copied blocks, one after the other.
ghost use Rattle.std.specs.Prelude.{[], ◌∷◌, ◌+◌, ◌-◌, ◌≤◌, length};
ghost use Rattle.base.specs.Blit.{part};
ghost use Rattle.mdf.specs.Block.{size_at};
ghost use Rattle.work_words.specs.CopyWords.{history_at};
ghost use Rattle.copier.specs.Standing.{copies_in};
ghost use Rattle.copier.specs.Index.{Indexes};
ghost use Rattle.copying.specs.ChainIndex.{ChainIndexes};
ghost use Rattle.result.specs.Fill.{block, copied_bytes, copied_blocks};
ghost use Rattle.copies_laws.specs.AnswerLaws.{Whole};
ghost use Rattle.copies_laws.specs.Laid.{Laid};
ghost use Rattle.write_copies.specs.Wrote.{Wrote};

use crate::gap::gap;
use blocks::block::size_at;
use copier::memo::index_copies;
use copying::history::index_chain;
use copying::{Copies, HistoryChain, put_copied};

// The copy of the block at a, at its place; from at on zeros up to there. Nothing where it doesn't lie between at and the end.
// It differs from write_at in what it puts: with a closure for that, the check did not prove what a call ensures if the index is right.
fn write_copy(
    out: &mut [u8],
    at: usize,
    copies: Copies<'_>,
    history: HistoryChain<'_>,
    a: u64,
    place: usize,
) -> usize
    ensures { at ≤ place → Whole copies.entry.image.now a → place + size_at copies.entry.image.now a ≤ length out.old
        → Indexes copies.entry.memo.now copies.entry.used copies.entry.index.now → ChainIndexes copies.entry.memo.now history.entry.chain history.entry.chained.now
        → Wrote at (block place (copied_bytes copies.entry.image.now (part history_at history.entry.chain copies.entry.memo.now)
        (copies_in copies.entry.memo.now copies.entry.used) history.entry.fh a) ∷ []) result out.old out.new }
{
    let all = out.len();
    let size = size_at(copies.image, a);
    if place < at || all < place || size > (all - place) as u64 {
        return at;
    }
    gap(out, at, place);
    put_copied(&mut out[place..], copies, history, a);
    place + size as usize
}

// The copies number from up to to of those in the words, from at on; their index and that of the history chain are there.
pub(crate) fn write_copies_by(
    out: &mut [u8],
    at: usize,
    copies: Copies<'_>,
    history: HistoryChain<'_>,
    from: u64,
    to: u64,
) -> usize
    requires { (to ≤ 2050) × (8192 ≤ length copies.memo.now) }
    ensures { from ≤ to → to ≤ copies.entry.used
        → Laid copies.entry.image.now at (part from (to - from) (copies_in copies.entry.memo.now copies.entry.used)) (length out.old)
        → Indexes copies.entry.memo.now copies.entry.used copies.entry.index.now → ChainIndexes copies.entry.memo.now history.entry.chain history.entry.chained.now
        → Wrote at (copied_blocks copies.entry.image.now (part history_at history.entry.chain copies.entry.memo.now) (copies_in copies.entry.memo.now copies.entry.used) history.entry.fh
        (part from (to - from) (copies_in copies.entry.memo.now copies.entry.used))) result out.old out.new }
{
    let mut p = at;
    for i in from..to {
        let j = (2 * i) as usize;
        let a = copies.memo[j];
        let place = copies.memo[j + 1] as usize;
        p = write_copy(out, p, copies, history, a, place);
    }
    p
}

// The same by indices made for them; nothing where the words aren't there.
pub fn write_copies(
    out: &mut [u8],
    at: usize,
    image: &[u8],
    memo: &[u64],
    used: u64,
    chain: u64,
    fh: u64,
    from: u64,
    to: u64,
) -> usize
    ensures { from ≤ to → to ≤ used → used ≤ 2050 → 8192 ≤ length memo.now
        → Laid image.now at (part from (to - from) (copies_in memo.now used)) (length out.old)
        → Wrote at (copied_blocks image.now (part history_at chain memo.now) (copies_in memo.now used) fh
        (part from (to - from) (copies_in memo.now used))) result out.old out.new }
{
    if 2050 < to || memo.len() < 8192 {
        return at;
    }
    let index = index_copies(memo, used);
    let chained = index_chain(memo, chain);
    let copies = Copies {
        image,
        memo,
        index: &index,
        used,
    };
    let history = HistoryChain {
        chained: &chained,
        chain,
        fh,
    };
    write_copies_by(out, at, copies, history, from, to)
}
