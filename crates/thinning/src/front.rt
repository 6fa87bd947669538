// The identification and the HD.
ghost use Rattle.std.specs.Prelude.{◌≡◌, [], ◌∷◌, ◌≤◌, length, get_or};
ghost use Rattle.base.specs.Blit.{part};
ghost use Rattle.base.specs.Choice.{if_eq};
ghost use Rattle.mdf.specs.Block.{link_at};
ghost use Rattle.copier.specs.Standing.{copies_in};
ghost use Rattle.result.specs.Fill.{block, new_link, hd_bytes};
ghost use Rattle.write_copies.specs.Wrote.{Wrote};

use blocks::block::link_at;
use copier::memo::new_link;
use filling::put_hd;
use puts::copy;

// The place of the first of n columns' DG, 0 without columns.
pub(crate) fn first_column(memo: &[u64], n: u64) -> u64
    requires { 8192 ≤ length memo.now }
    ensures { result ≡ if_eq n 0 0 (get_or memo.now 6656 0) }
{
    if n == 0 { 0 } else { memo[6656] }
}

// The place of the copy of the history's first block, 0 without history.
pub(crate) fn first_history(memo: &[u64], used: u64, chain: u64) -> u64
    requires { 8192 ≤ length memo.now }
    ensures { result ≡ if_eq chain 0 0 (new_link (copies_in memo.now used) (get_or memo.now 4352 0)) }
{
    if chain == 0 {
        0
    } else {
        new_link(memo, used, memo[4352])
    }
}

// The place of the copy of the HD's comment.
pub(crate) fn comment_of(image: &[u8], memo: &[u64], used: u64) -> u64
    ensures { result ≡ new_link (copies_in memo.now used) (link_at image.now 64 5) }
{
    new_link(memo, used, link_at(image, 64, 5))
}

// The image's first 64 bytes and the HD at the front of out; the index past them, 168.
pub(crate) fn write_front(
    out: &mut [u8],
    image: &[u8],
    dg: u64,
    fh: u64,
    attachment: u64,
    comment: u64,
) -> usize
    requires { (64 ≤ length image.now) × (168 ≤ length out.old) }
    ensures { Wrote 0 (block 0 (part 0 64 image.now) ∷ block 64 (hd_bytes image.now dg fh attachment comment) ∷ []) result
        out.old out.new }
{
    copy(out, 0, image, 0, 64);
    put_hd(&mut out[64..], image, dg, fh, attachment, comment);
    168
}
