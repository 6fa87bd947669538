// The identification and the HD; the new MD and FH.
ghost use Rattle.std.specs.Prelude.{◌≡◌, ◌+◌, ◌≤◌, [], ◌∷◌, length};
ghost use Rattle.plan.specs.Layout.{md_size};
ghost use Rattle.result.specs.Fill.{block, hd_bytes, md_bytes, fh_bytes};
ghost use Rattle.result.specs.Ordered.{Ordered};
ghost use Rattle.write_copies.specs.Wrote.{Wrote};

use filling::{put_fh, put_hd, put_md};
use puts::copy;
use write_copies::gap::gap;

// The identification and the HD at the front of out; the index past them, 168.
pub(crate) fn write_front(
    out: &mut [u8],
    image: &[u8],
    ident: &[u8],
    dg: u64,
    fh: u64,
    attachment: u64,
    comment: u64,
) -> usize
    requires { (length ident.now ≡ 64) × (168 ≤ length out.old) }
    ensures past { result ≡ 168 }
    ensures wrote { Wrote 0 (block 0 ident.now ∷ block 64 (hd_bytes image.now dg fh attachment comment) ∷ []) result
        out.old out.new }
{
    copy(out, 0, ident, 0, 64);
    put_hd(&mut out[64..], image, dg, fh, attachment, comment);
    168
}

// The MD with the history text, zeros before it; the index past it.
fn write_md(out: &mut [u8], at: usize, md: u64, text: &[u8]) -> usize
    requires { (at ≤ md) × (md + md_size (length text.now) ≤ length out.old) }
    ensures { Wrote at (block md (md_bytes text.now) ∷ []) result out.old out.new }
{
    let to = md as usize;
    gap(out, at, to);
    put_md(&mut out[to..], text);
    to + (text.len() / 8 * 8 + 32)
}

// The new FH.
fn write_fh(out: &mut [u8], at: usize, md: u64, fh: u64, time: u64) -> usize
    requires { (at ≤ fh) × (fh + 56 ≤ length out.old) }
    ensures { Wrote at (block fh (fh_bytes md time) ∷ []) result out.old out.new }
{
    let to = fh as usize;
    gap(out, at, to);
    put_fh(&mut out[to..], md, time);
    to + 56
}

// Both, from index at on; the index past them.
pub(crate) fn write_history(
    out: &mut [u8],
    at: usize,
    md: u64,
    fh: u64,
    text: &[u8],
    time: u64,
) -> usize
    requires { Ordered at (block md (md_bytes text.now) ∷ block fh (fh_bytes md time) ∷ []) (length out.old) }
    ensures { Wrote at (block md (md_bytes text.now) ∷ block fh (fh_bytes md time) ∷ []) result
        out.old out.new }
{
    let a = write_md(out, at, md, text);
    write_fh(out, a, md, fh, time)
}
