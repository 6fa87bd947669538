// Each block of the result, laid over a window of the file that begins at index a; the block stands at index at. What lies outside the window is left
// out, so each takes any window, any index and any number, and a block apart from the window costs a test.
#![tactic(auto)]

ghost use Rattle.std.specs.Prelude.{◌≡◌, ◌+◌, ◌-◌, ◌*◌, ◌%◌, ◌^◌, ◌≤◌, true, length, replicate};
ghost use Rattle.base.specs.Blit.{blit, part};
ghost use Rattle.mdf.specs.Block.{data_at};
ghost use Rattle.result.specs.Fill.{md_bytes, fh_bytes, hd_bytes};
ghost use Rattle.filling.specs.Blocks.{dg_from, cg_from, cn_front, cn_data_from, dl_from};
ghost use Rattle.stores.specs.Over.{over};
ghost use Rattle.window_blocks.specs.Apart.{Apart};
ghost use Rattle.window_blocks.specs.Sizes.{cg_length, cn_data_length};
ghost use Rattle.window_blocks.specs.Tail.{dl_data, dl_tail};

use blocks::block::{MD, data_at};
use filling::{put_cg, put_cn, put_cn_data, put_dg, put_dl, put_dl_data, put_fh, put_hd, put_md};
use puts::{put_u64, zero};
use windows::{lay, lay_header, lay_u64};

// Whether n bytes at index at lie apart from a window of so many bytes from a on.
pub fn apart(room: usize, a: u64, at: u64, n: u64) -> bool
    ensures { result ≡ true → Apart room a at n }
{
    if at <= a {
        n <= a - at
    } else {
        room as u64 <= at - a
    }
}

// The new FH.
pub fn lay_fh(w: &mut [u8], a: u64, at: u64, md: u64, time: u64)
    ensures { w.new ≡ over a at (fh_bytes md time) w.old }
{
    if apart(w.len(), a, at, 56) {
        return;
    }
    let mut block = [0u8; 56];
    put_fh(&mut block, md, time);
    lay(w, a, at, &block, 0, 56);
}

// The HD, with its first DG, FH and AT.
pub fn lay_hd(
    w: &mut [u8],
    a: u64,
    at: u64,
    image: &[u8],
    dg: u64,
    fh: u64,
    attachment: u64,
    comment: u64,
)
    ensures { w.new ≡ over a at (hd_bytes image.now dg fh attachment comment) w.old }
{
    if apart(w.len(), a, at, 104) {
        return;
    }
    let mut block = [0u8; 104];
    put_hd(&mut block, image, dg, fh, attachment, comment);
    lay(w, a, at, &block, 0, 104);
}

// A column's DG.
pub fn lay_dg(w: &mut [u8], a: u64, at: u64, next: u64, cg: u64, dl: u64, comment: u64)
    ensures { w.new ≡ over a at (dg_from next cg dl comment) w.old }
{
    if apart(w.len(), a, at, 64) {
        return;
    }
    let mut block = [0u8; 64];
    put_dg(&mut block, next, cg, dl, comment);
    lay(w, a, at, &block, 0, 64);
}

// How many of the n bytes from byte i on of the data of the block at g the image has.
fn data_there(image: &[u8], g: u64, i: u64, n: u64) -> u64
    ensures { (result ≡ length (part (data_at image.now g + i) n image.now)) × (result ≤ n) }
{
    let all = image.len() as u64;
    let from = data_at(image, g);
    n.min((all - from).saturating_sub(i))
}

// How many bytes a column's CG has that is made from the CG at g.
fn cg_length(image: &[u8], g: u64, remote: bool) -> u64
    ensures { (result ≡ cg_length image.now g remote) × (result ≤ 112) }
{
    let k = data_there(image, g, 18, 2);
    if remote { 110 + k } else { 102 + k }
}

// A column's CG, from the CG at g; master is the master's CG where it is remote.
pub fn lay_cg(
    w: &mut [u8],
    a: u64,
    at: u64,
    image: &[u8],
    g: u64,
    cn: u64,
    name: u64,
    source: u64,
    comment: u64,
    remote: bool,
    master: u64,
    records: u64,
    bytes: u64,
    inval: bool,
)
    ensures { w.new ≡ over a at (cg_from image.now g cn name source comment remote master records bytes inval) w.old }
{
    if apart(w.len(), a, at, 112) {
        return;
    }
    let mut block = [0u8; 112];
    put_cg(
        &mut block, image, g, cn, name, source, comment, remote, master, records, bytes, inval,
    );
    let n = cg_length(image, g, remote);
    lay(w, a, at, &block, 0, n);
}

// A column's CN up to its eighth link; it has so many bytes and links.
pub fn lay_cn(
    w: &mut [u8],
    a: u64,
    at: u64,
    size: u64,
    links: u64,
    name: u64,
    source: u64,
    conversion: u64,
    sd: u64,
    unit: u64,
    comment: u64,
)
    ensures { w.new ≡ over a at (cn_front size links name source conversion sd unit comment) w.old }
{
    if apart(w.len(), a, at, 88) {
        return;
    }
    let mut block = [0u8; 88];
    put_cn(
        &mut block, size, links, name, source, conversion, sd, unit, comment,
    );
    lay(w, a, at, &block, 0, 88);
}

// How many bytes of data a column's CN has that is made from the CN at c.
fn cn_data_length(image: &[u8], c: u64) -> u64
    ensures { (result ≡ cn_data_length image.now c) × (result ≤ 72) }
{
    let i = data_there(image, c, 1, 3);
    let j = data_there(image, c, 8, 4);
    let k = data_there(image, c, 20, 2);
    let l = data_there(image, c, 24, 48);
    15 + i + j + k + l
}

// A column's data of the CN, from the CN at c, with the type stored and the number of references to attachments.
pub fn lay_cn_data(
    w: &mut [u8],
    a: u64,
    at: u64,
    image: &[u8],
    c: u64,
    stored: u64,
    keeps: bool,
    photos: u64,
)
    ensures { w.new ≡ over a at (cn_data_from image.now c stored keeps photos) w.old }
{
    if apart(w.len(), a, at, 72) {
        return;
    }
    let mut block = [0u8; 72];
    put_cn_data(&mut block, image, c, stored, keeps, photos);
    let n = cn_data_length(image, c);
    lay(w, a, at, &block, 0, n);
}

// The data of a DL of n blocks.
fn lay_dl_data(w: &mut [u8], a: u64, at: u64, payload: u64, n: u64)
    ensures { w.new ≡ over a at (dl_data payload n) w.old }
{
    if apart(w.len(), a, at, 16) {
        return;
    }
    let mut block = [0u8; 16];
    put_dl_data(&mut block, n, payload);
    lay(w, a, at, &block, 0, 16);
}

// The last k links of a DL of n blocks, the first of them b, and its data, at index at of w.
fn put_tail(w: &mut [u8], at: usize, payload: u64, n: u64, k: u64, b: u64)
    ensures { w.new ≡ blit at (dl_tail payload n k b) w.old }
{
    if w.len() <= at {
        return;
    }
    let step = payload.wrapping_add(24);
    let mut p = at;
    let mut next = b;
    for _i in 0..k {
        put_u64(w, p, next);
        if w.len() - p <= 8 {
            return;
        }
        p += 8;
        next = next.wrapping_add(step);
    }
    lay_dl_data(w, 0, p as u64, payload, n);
}

// All links of a DL of n blocks but the first, which is none, and its data, over a window that begins skip bytes past where they begin. Only those in
// the window are laid.
fn lay_tail(w: &mut [u8], skip: u64, payload: u64, n: u64, first: u64)
    ensures { w.new ≡ over skip 0 (dl_tail payload n n first) w.old }
{
    let i = skip / 8;
    if n <= i {
        lay_dl_data(w, skip - 8 * n, 0, payload, n);
        return;
    }
    let step = payload.wrapping_add(24);
    let b = first.wrapping_add(i.wrapping_mul(step));
    lay_u64(w, skip % 8, 0, b);
    let next = b.wrapping_add(step);
    put_tail(w, (8 - skip % 8) as usize, payload, n, n - i - 1, next);
}

// A DL over a window that begins in its first 32 bytes.
fn lay_dl_front(w: &mut [u8], skip: u64, payload: u64, n: u64, first: u64)
    requires { skip ≤ 32 }
    ensures { w.new ≡ over skip 0 (dl_from payload n first) w.old }
{
    let mut block = [0u8; 32];
    put_dl(&mut block, payload, n, first);
    lay(w, skip, 0, &block, 0, 32);
    put_tail(w, (32 - skip) as usize, payload, n, n, first);
}

// The DL of n blocks with the payload given, the first at first.
pub fn lay_dl(w: &mut [u8], a: u64, at: u64, payload: u64, n: u64, first: u64)
    ensures { w.new ≡ over a at (dl_from payload n first) w.old }
{
    if a <= at {
        if w.len() as u64 <= at - a {
            return;
        }
        let p = (at - a) as usize;
        put_dl(&mut w[p..], payload, n, first);
        return;
    }
    let skip = a - at;
    if skip < 32 {
        lay_dl_front(w, skip, payload, n, first);
        return;
    }
    lay_tail(w, skip - 32, payload, n, first);
}

// The zeros that end a text of n bytes, over a window that begins skip bytes past where the MD begins.
fn lay_padding(w: &mut [u8], skip: u64, n: u64)
    ensures { w.new ≡ over skip (24 + n) (replicate (8 - n % 8) 0) w.old }
{
    let past = skip.saturating_sub(24);
    let to = n
        .saturating_sub(past)
        .saturating_add(24u64.saturating_sub(skip));
    let cut = past.saturating_sub(n);
    zero(w, to as usize, (8 - n % 8).saturating_sub(cut));
}

// The MD with the history text, over a window that begins skip bytes past where it begins.
fn lay_md_from(w: &mut [u8], skip: u64, text: &[u8])
    ensures { w.new ≡ over skip 0 (md_bytes text.now) w.old }
{
    let n = text.len() as u64;
    lay_header(w, skip, 0, MD, (n / 8 * 8).wrapping_add(32), 0);
    lay(w, skip, 24, text, 0, n);
    lay_padding(w, skip, n);
}

// The MD with the history text.
pub fn lay_md(w: &mut [u8], a: u64, at: u64, text: &[u8])
    ensures { w.new ≡ over a at (md_bytes text.now) w.old }
{
    if a <= at {
        if w.len() as u64 <= at - a {
            return;
        }
        let p = (at - a) as usize;
        put_md(&mut w[p..], text);
        return;
    }
    let skip = a - at;
    if 32 <= skip && text.len() as u64 <= skip - 32 {
        return;
    }
    lay_md_from(w, skip, text);
}
