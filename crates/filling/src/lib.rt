// Each block of the result, laid over a slice that begins at the block's place. What would lie past the slice's end is lost.
#![tactic(auto)]

ghost use Rattle.std.specs.Prelude.{◌≡◌, ◌+◌, ◌-◌, ◌*◌, ◌%◌, ◌<◌, ◌≤◌, ◌++◌, take, replicate};
ghost use Rattle.base.specs.Field.{le};
ghost use Rattle.base.specs.Blit.{blit, part};
ghost use Rattle.mdf.specs.Block.{size_at, links_at, data_at};
ghost use Rattle.mdf.specs.Group.{group_flags};
ghost use Rattle.plan.specs.Channel.{channel_flags};
ghost use Rattle.plan.specs.Layout.{dl_size};
ghost use Rattle.result.specs.Fill.{one, md_bytes, fh_bytes, data_of, hd_bytes, cn_flags, block_links};
ghost use Rattle.filling.specs.Blocks.{Laid, dg_from, flags_from, cg_header, cg_front, cg_counts, cg_data_from, cg_from};
ghost use Rattle.filling.specs.Blocks.{cn_links, cn_types, cn_rest, cn_front, cn_data_from, dl_from};

use blocks::block::{CG, CN, DG, DL, HD, MD, data_at, data_field, links_at, size_at};
use puts::{copy, header, put_u8, put_u16, put_u32, put_u64, zero};

const FH: u64 = 1212556067;

// n bytes from byte i on of the data of the block at a, as many as the image has, at index at; the index past them.
fn put_data(d: &mut [u8], at: usize, image: &[u8], a: u64, i: u64, n: u64) -> usize
    requires { at + n < 18446744073709551616 }
    ensures { Laid at (part (data_at image.now a + i) n image.now) (at + n) d.old d.new result }
{
    let all = image.len() as u64;
    let from = data_at(image, a);
    if all - from <= i {
        return at;
    }
    copy(d, at, image, from + i, n);
    let k = n.min(all - (from + i));
    at + k as usize
}

// The zeros that end a text of n bytes, past the MD's header.
fn put_padding(d: &mut [u8], n: usize)
    ensures { d.new ≡ blit (24 + n) (replicate (8 - n % 8) 0) d.old }
{
    let room = d.len();
    if room < 24 || room - 24 < n {
        return;
    }
    zero(d, 24 + n, (8 - n % 8) as u64);
}

// The MD with the history text.
pub fn put_md(d: &mut [u8], text: &[u8])
    ensures { d.new ≡ blit 0 (md_bytes text.now) d.old }
{
    let n = text.len();
    let whole = n as u64;
    header(d, MD, (whole / 8 * 8).wrapping_add(32), 0);
    copy(d, 24, text, 0, whole);
    put_padding(d, n);
}

// The new FH.
pub fn put_fh(d: &mut [u8], md: u64, time: u64)
    ensures { d.new ≡ blit 0 (fh_bytes md time) d.old }
{
    header(d, FH, 56, 2);
    put_u64(d, 24, 0);
    put_u64(d, 32, md);
    put_u64(d, 40, time);
    put_u64(d, 48, 0);
}

// How many bytes of data the block at a has; as in copying, which stands beside this crate.
fn data_size(image: &[u8], a: u64) -> u64
    ensures { result ≡ size_at image.now a - (24 + 8 * links_at image.now a) }
{
    let links = links_at(image, a);
    size_at(image, a).saturating_sub(links.saturating_mul(8).saturating_add(24))
}

// n bytes of the data of the block at a, cut or filled with zeros, at index at.
pub fn put_cut_data(d: &mut [u8], at: usize, n: u64, image: &[u8], a: u64)
    ensures { d.new ≡ blit at (take n (data_of image.now a ++ replicate n 0)) d.old }
{
    let room = d.len();
    if room <= at {
        return;
    }
    let m = n.min((room - at) as u64);
    let k = m.min(data_size(image, a));
    let p = put_data(d, at, image, a, 0, k);
    zero(d, p, (at + m as usize - p) as u64);
}

// The HD, with its first DG, FH and AT.
pub fn put_hd(d: &mut [u8], image: &[u8], dg: u64, fh: u64, attachment: u64, comment: u64)
    ensures { d.new ≡ blit 0 (hd_bytes image.now dg fh attachment comment) d.old }
{
    header(d, HD, 104, 6);
    put_u64(d, 24, dg);
    put_u64(d, 32, fh);
    put_u64(d, 40, 0);
    put_u64(d, 48, attachment);
    put_u64(d, 56, 0);
    put_u64(d, 64, comment);
    put_cut_data(d, 72, 32, image, 64);
}

// A column's DG.
pub fn put_dg(d: &mut [u8], next: u64, cg: u64, dl: u64, comment: u64)
    ensures { d.new ≡ blit 0 (dg_from next cg dl comment) d.old }
{
    header(d, DG, 64, 4);
    put_u64(d, 24, next);
    put_u64(d, 32, cg);
    put_u64(d, 40, dl);
    put_u64(d, 48, comment);
    put_u64(d, 56, 0);
}

// Its CG's flags, from the CG at g: remote, with a master in another group.
fn cg_flags(image: &[u8], g: u64, remote: bool) -> u64
    ensures { result ≡ flags_from (group_flags image.now g) remote }
{
    let f = data_field::<2>(image, g, 16);
    if remote { f / 16 * 16 + 8 } else { f / 16 * 16 }
}

// Its header.
fn put_cg_header(d: &mut [u8], remote: bool)
    ensures { d.new ≡ blit 0 (cg_header remote) d.old }
{
    if remote {
        header(d, CG, 112, 7);
        return;
    }
    header(d, CG, 104, 6);
}

// Its header and the six links that every CG has.
pub fn put_cg_front(d: &mut [u8], remote: bool, cn: u64, name: u64, source: u64, comment: u64)
    ensures { d.new ≡ blit 0 (cg_front remote cn name source comment) d.old }
{
    put_cg_header(d, remote);
    put_u64(d, 24, 0);
    put_u64(d, 32, cn);
    put_u64(d, 40, name);
    put_u64(d, 48, source);
    put_u64(d, 56, 0);
    put_u64(d, 64, comment);
}

// Its data up to the path separator; the index past that.
fn put_cg_counts(d: &mut [u8], at: usize, image: &[u8], g: u64, remote: bool, records: u64) -> usize
    requires { at ≤ 80 }
    ensures { Laid at (cg_counts image.now g remote records) (at + 20) d.old d.new result }
{
    put_u64(d, at, 0);
    put_u64(d, at + 8, records);
    put_u16(d, at + 16, cg_flags(image, g, remote));
    put_data(d, at + 18, image, g, 18, 2)
}

// Its data.
fn put_cg_data(
    d: &mut [u8],
    at: usize,
    image: &[u8],
    g: u64,
    remote: bool,
    records: u64,
    bytes: u64,
    inval: bool,
)
    requires { at ≤ 80 }
    ensures { d.new ≡ blit at (cg_data_from image.now g remote records bytes inval) d.old }
{
    let p = put_cg_counts(d, at, image, g, remote, records);
    put_u32(d, p, 0);
    put_u32(d, p + 4, bytes);
    put_u32(d, p + 8, u64::from(inval));
}

// A column's CG, from the CG at g; master is the master's CG where it is remote.
pub fn put_cg(
    d: &mut [u8],
    image: &[u8],
    g: u64,
    cn: u64,
    name: u64,
    source: u64,
    comment: u64,
    remote: bool,
    master: u64,
    records: u64,
    bytes: u64,
    inval: bool,
)
    ensures { d.new ≡ blit 0 (cg_from image.now g cn name source comment remote master records bytes inval) d.old }
{
    put_cg_front(d, remote, cn, name, source, comment);
    if remote {
        put_u64(d, 72, master);
        put_cg_data(d, 80, image, g, remote, records, bytes, inval);
        return;
    }
    put_cg_data(d, 72, image, g, remote, records, bytes, inval);
}

// The flags of a column's CN, from the CN at c: bit 12 is cleared, and bit 1 where no invalidation bit is kept.
fn cn_flags(image: &[u8], c: u64, keeps: bool) -> u64
    ensures { result ≡ cn_flags (channel_flags image.now c) keeps }
{
    let f = data_field::<4>(image, c, 12);
    let cleared = f - f / 4096 % 2 * 4096;
    if keeps {
        cleared
    } else {
        cleared - f / 2 % 2 * 2
    }
}

// Its header, of so many bytes and links, and the first seven links.
fn put_cn_links(
    d: &mut [u8],
    size: u64,
    links: u64,
    name: u64,
    source: u64,
    conversion: u64,
    sd: u64,
    unit: u64,
)
    ensures { d.new ≡ blit 0 (cn_links size links name source conversion sd unit) d.old }
{
    header(d, CN, size, links);
    put_u64(d, 24, 0);
    put_u64(d, 32, 0);
    put_u64(d, 40, name);
    put_u64(d, 48, source);
    put_u64(d, 56, conversion);
    put_u64(d, 64, sd);
    put_u64(d, 72, unit);
}

// A column's CN up to its eighth link; it has so many bytes and links.
pub fn put_cn(
    d: &mut [u8],
    size: u64,
    links: u64,
    name: u64,
    source: u64,
    conversion: u64,
    sd: u64,
    unit: u64,
    comment: u64,
)
    ensures { d.new ≡ blit 0 (cn_front size links name source conversion sd unit comment) d.old }
{
    put_cn_links(d, size, links, name, source, conversion, sd, unit);
    put_u64(d, 80, comment);
}

// Its data up to the bit count, with the type stored; the index past that.
fn put_cn_types(d: &mut [u8], image: &[u8], c: u64, stored: u64) -> usize
    ensures { Laid 0 (cn_types image.now c stored) 12 d.old d.new result }
{
    put_u8(d, 0, stored);
    let p = put_data(d, 1, image, c, 1, 3);
    put_u32(d, p, 0);
    put_data(d, p + 4, image, c, 8, 4)
}

// Its data from the flags on, with the number of references to attachments.
fn put_cn_rest(d: &mut [u8], at: usize, image: &[u8], c: u64, keeps: bool, photos: u64)
    requires { at ≤ 12 }
    ensures { d.new ≡ blit at (cn_rest image.now c keeps photos) d.old }
{
    put_u32(d, at, cn_flags(image, c, keeps));
    put_u32(d, at + 4, 0);
    let p = put_data(d, at + 8, image, c, 20, 2);
    put_u16(d, p, photos);
    put_data(d, p + 2, image, c, 24, 48);
}

// A column's data of the CN, from the CN at c, with the type stored and the number of references to attachments.
pub fn put_cn_data(d: &mut [u8], image: &[u8], c: u64, stored: u64, keeps: bool, photos: u64)
    ensures { d.new ≡ blit 0 (cn_data_from image.now c stored keeps photos) d.old }
{
    let p = put_cn_types(d, image, c, stored);
    put_cn_rest(d, p, image, c, keeps, photos);
}

// The length of a DL of n blocks, modulo 2^64.
fn dl_size(n: u64) -> u64
    ensures { le 8 result ≡ le 8 (dl_size n) }
{
    if n == 0 {
        return 0;
    }
    n.wrapping_mul(8).wrapping_add(48)
}

// The places of n blocks, 24 + payload apart, the first at a, at index 32.
fn put_links(d: &mut [u8], payload: u64, n: u64, a: u64)
    ensures { d.new ≡ blit 32 (block_links payload n a) d.old }
{
    if d.len() <= 32 {
        return;
    }
    let step = 24u64.wrapping_add(payload);
    let mut b = a;
    for i in 0..n {
        let p = 32 + 8 * i as usize;
        put_u64(d, p, b);
        if d.len() - p <= 8 {
            return;
        }
        b = b.wrapping_add(step);
    }
}

// A DL's data at the front of d.
pub fn put_dl_data(d: &mut [u8], n: u64, payload: u64)
    ensures { d.new ≡ blit 0 (le 4 1 ++ le 4 n ++ le 8 payload) d.old }
{
    put_u32(d, 0, 1);
    put_u32(d, 4, n);
    put_u64(d, 8, payload);
}

// A DL's data past n + 1 links.
fn put_dl_past(d: &mut [u8], n: u64, payload: u64)
    ensures { d.new ≡ blit (32 + 8 * n) (le 4 1 ++ le 4 n ++ le 8 payload) d.old }
{
    let room = d.len() as u64;
    if room < 32 || (room - 32) / 8 < n {
        return;
    }
    let p = (32 + 8 * n) as usize;
    put_dl_data(&mut d[p..], n, payload);
}

// The DL of n blocks with the payload given, the first at a.
pub fn put_dl(d: &mut [u8], payload: u64, n: u64, a: u64)
    ensures { d.new ≡ blit 0 (dl_from payload n a) d.old }
{
    header(d, DL, dl_size(n), n.wrapping_add(1));
    put_u64(d, 24, 0);
    put_links(d, payload, n, a);
    put_dl_past(d, n, payload);
}
