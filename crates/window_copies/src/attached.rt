// Attachments, each after the blocks newly copied for it.
ghost use Rattle.std.specs.Prelude.{◌≡◌, ◌+◌, ◌-◌, ◌≤◌, length};
ghost use Rattle.base.specs.Blit.{part};
ghost use Rattle.work_words.specs.CopyWords.{history_at};
ghost use Rattle.copier.specs.Standing.{copies_in};
ghost use Rattle.result.specs.Fill.{at_bytes, copied_blocks, attachment_blocks};
ghost use Rattle.copies_laws.specs.AttachLaws.{Moved, own_copies};
ghost use Rattle.stores.specs.Over.{over};
ghost use Rattle.windows.specs.Windowed.{over_all};
ghost use Rattle.window_copies.specs.Attachments.{attachments_in, NextPlace};
ghost use Rattle.window_copies.specs.Laying.{Wholes};
ghost use Rattle.window_copies.specs.LayingAt.{AllMoved};

use crate::copies::{lay_copies, lies};
use crate::lay_at;
use copier::memo::index_copies;
use copying::Copies;

// The AT made of the one at from, which stands at index at of the file, by an index made for it where it has a byte in the window.
fn lay_moved(
    w: &mut [u8],
    a: u64,
    at: u64,
    image: &[u8],
    memo: &[u64],
    used: u64,
    from: u64,
    next: u64,
)
    ensures { Moved image.now from
        → w.new ≡ over a at (at_bytes image.now (copies_in memo.now used) from next) w.old }
{
    if lies(image, a, w.len() as u64, from, at) {
        let index = index_copies(memo, used);
        let copies = Copies {
            image,
            memo,
            index: &index,
            used,
        };
        lay_at(w, a, at, copies, from, next);
    }
}

// The place of attachment number i of count, 0 past the last. A word past the end counts as 0.
pub fn next_place(memo: &[u64], i: u64, count: u64) -> u64
    ensures { NextPlace memo.now i count result }
{
    let all = memo.len();
    if count <= i || all < 4102 || i > ((all - 4102) / 3) as u64 {
        return 0;
    }
    memo[(4100 + 3 * i) as usize + 1]
}

// The copies number own up to end, then the AT made of the one at from.
fn lay_attachment(
    w: &mut [u8],
    a: u64,
    at: u64,
    image: &[u8],
    memo: &[u64],
    used: u64,
    chain: u64,
    fh: u64,
    own: u64,
    end: u64,
    from: u64,
    next: u64,
)
    ensures { own ≤ end → end ≤ used → end ≤ 2050 → 4100 ≤ length memo.now
        → Wholes image.now (part own (end - own) (copies_in memo.now used)) → Moved image.now from
        → w.new ≡ over a at (at_bytes image.now (copies_in memo.now used) from next)
        (over_all a (copied_blocks image.now (part history_at chain memo.now) (copies_in memo.now used) fh
        (part own (end - own) (copies_in memo.now used))) w.old) }
{
    lay_copies(w, a, image, memo, used, chain, fh, own, end);
    lay_moved(w, a, at, image, memo, used, from, next);
}

// All attachments of the words, the first one's copies from copy number first on; nothing more where the words aren't there.
pub fn lay_attachments(
    w: &mut [u8],
    a: u64,
    image: &[u8],
    memo: &[u64],
    used: u64,
    chain: u64,
    fh: u64,
    first: u64,
    count: u64,
)
    ensures { first + length (own_copies (attachments_in memo.now first count)) ≤ used → used ≤ 2050 → count ≤ 64
        → 4292 ≤ length memo.now → AllMoved image.now (attachments_in memo.now first count)
        → w.new ≡ over_all a (attachment_blocks image.now (part history_at chain memo.now) (copies_in memo.now used) fh
        (attachments_in memo.now first count)) w.old }
{
    if 2050 < first || 64 < count || memo.len() < 4292 {
        return;
    }
    let mut own = first;
    for i in 0..count {
        let j = (4100 + 3 * i) as usize;
        let made = memo[j + 2];
        if 2050 - own < made {
            return;
        }
        let end = own + made;
        let next = next_place(memo, i + 1, count);
        lay_attachment(
            w,
            a,
            memo[j + 1],
            image,
            memo,
            used,
            chain,
            fh,
            own,
            end,
            memo[j],
            next,
        );
        own = end;
    }
}
