// Attachments, each after the blocks newly copied for it.
ghost use Rattle.std.specs.Prelude.{[], ◌∷◌, ◌++◌, ◌+◌, ◌-◌, ◌≤◌, length};
ghost use Rattle.base.specs.Blit.{part};
ghost use Rattle.mdf.specs.Block.{size_at};
ghost use Rattle.work_words.specs.CopyWords.{history_at};
ghost use Rattle.copier.specs.Standing.{copies_in};
ghost use Rattle.copier.specs.Index.{Indexes};
ghost use Rattle.copying.specs.ChainIndex.{ChainIndexes};
ghost use Rattle.result.specs.Fill.{block, copied_blocks, at_bytes, attachment_blocks};
ghost use Rattle.copies_laws.specs.AttachLaws.{Moved, LaidAt, own_copies};
ghost use Rattle.window_copies.specs.Attachments.{attachments_in};
ghost use Rattle.write_copies.specs.Wrote.{Wrote};
ghost use Rattle.write_copies.specs.Attachments.{Placing};

use crate::copies::write_copies_by;
use crate::gap::gap;
use blocks::block::size_at;
use copier::memo::index_copies;
use copying::history::index_chain;
use copying::{Copies, HistoryChain, put_at};
pub use window_copies::attached::next_place;

// The AT made of the one at a, at its place; from at on zeros up to there. Nothing where it doesn't lie between at and the end.
fn write_at(out: &mut [u8], at: usize, copies: Copies<'_>, a: u64, place: usize, next: u64) -> usize
    ensures { at ≤ place → Moved copies.entry.image.now a → place + size_at copies.entry.image.now a ≤ length out.old
        → Indexes copies.entry.memo.now copies.entry.used copies.entry.index.now
        → Wrote at (block place (at_bytes copies.entry.image.now (copies_in copies.entry.memo.now copies.entry.used) a next) ∷ []) result
        out.old out.new }
{
    let all = out.len();
    let size = size_at(copies.image, a);
    if place < at || all < place || size > (all - place) as u64 {
        return at;
    }
    gap(out, at, place);
    put_at(&mut out[place..], copies, a, next);
    place + size as usize
}

// The copies number own up to end, then the AT made of the one at a.
fn write_attachment(
    out: &mut [u8],
    at: usize,
    copies: Copies<'_>,
    history: HistoryChain<'_>,
    own: u64,
    end: u64,
    a: u64,
    place: usize,
    next: u64,
) -> usize
    requires { (end ≤ 2050) × (8192 ≤ length copies.memo.now) }
    ensures { own ≤ end → end ≤ copies.entry.used
        → Placing copies.entry.image.now at (part own (end - own) (copies_in copies.entry.memo.now copies.entry.used)) a place (length out.old)
        → Indexes copies.entry.memo.now copies.entry.used copies.entry.index.now → ChainIndexes copies.entry.memo.now history.entry.chain history.entry.chained.now
        → Wrote at (copied_blocks copies.entry.image.now (part history_at history.entry.chain copies.entry.memo.now) (copies_in copies.entry.memo.now copies.entry.used) history.entry.fh
        (part own (end - own) (copies_in copies.entry.memo.now copies.entry.used))
        ++ (block place (at_bytes copies.entry.image.now (copies_in copies.entry.memo.now copies.entry.used) a next) ∷ [])) result out.old out.new }
{
    let p = write_copies_by(out, at, copies, history, own, end);
    write_at(out, p, copies, a, place, next)
}

// All attachments of the words, the first one's copies from copy number first on, from at on; no more where the words aren't there.
pub fn write_attachments(
    out: &mut [u8],
    at: usize,
    image: &[u8],
    memo: &[u64],
    used: u64,
    chain: u64,
    fh: u64,
    first: u64,
    count: u64,
) -> usize
    ensures { first + length (own_copies (attachments_in memo.now first count)) ≤ used → used ≤ 2050 → count ≤ 64
        → 8192 ≤ length memo.now
        → LaidAt image.now at (attachments_in memo.now first count) (length out.old)
        → Wrote at (attachment_blocks image.now (part history_at chain memo.now) (copies_in memo.now used) fh
        (attachments_in memo.now first count)) result out.old out.new }
{
    if 2050 < first || 64 < count || memo.len() < 8192 {
        return at;
    }
    let index = index_copies(memo, used);
    let chained = index_chain(memo, chain);
    let copies = Copies {
        image,
        memo,
        index: &index,
        used,
    };
    let history = HistoryChain {
        chained: &chained,
        chain,
        fh,
    };
    let mut own = first;
    let mut p = at;
    for i in 0..count {
        let j = (4100 + 3 * i) as usize;
        let a = memo[j];
        let place = memo[j + 1] as usize;
        let made = memo[j + 2];
        if 2050 - own < made {
            return p;
        }
        let end = own + made;
        let next = next_place(memo, i + 1, count);
        p = write_attachment(out, p, copies, history, own, end, a, place, next);
        own = end;
    }
    p
}
