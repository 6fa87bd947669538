// Every column's DG, CG, CN and DL, one after the other.
ghost use Rattle.std.specs.Prelude.{◌≡◌, ◌+◌, ◌*◌, ◌<◌, ◌≤◌, [], ◌∷◌, length};
ghost use Rattle.base.specs.Blit.{blit};
ghost use Rattle.base.specs.Choice.{if_eq};
ghost use Rattle.mdf.specs.Block.{link_at, data_at};
ghost use Rattle.plan.specs.Layout.{dl_size};
ghost use Rattle.copier.specs.Standing.{copies_in};
ghost use Rattle.copier.specs.Index.{Indexes};
ghost use Rattle.result.specs.Fill.{block, new_link, structure_blocks};
ghost use Rattle.window_copies.specs.Attachments.{attachments_in};
ghost use Rattle.writing.specs.PlacedIn.{placed_in};
ghost use Rattle.writing.specs.Structure.{on_table, cn_length, column_dg, column_cg, column_front, column_data, column_cn, column_d_ls, column_parts, cg_length, Room, StructureReady};
ghost use Rattle.write_copies.specs.Wrote.{Wrote};

use crate::placed::{PlacedColumn, column_of, next_place};
use blocks::block::link_at;
use channels::{channel_bytes, keeps_inval};
use copier::memo::{index_copies, link_by};
use filling::{put_cg, put_cn, put_cn_data, put_dg, put_dl};
use write_copies::gap::gap;
use write_copies::led::put_photos;

// What links are led to: the image that they stand in, its copies in words, an index of them and their number; and the attachments, whose copies
// follow those of the metadata.
#[derive(Clone, Copy)]
struct Copies<'a> {
    image: &'a [u8],
    memo: &'a [u64],
    index: &'a [u16; 4096],
    used: u64,
    metadata: u64,
    attached: u64,
}

// Link i of the block at a, led to its copy.
fn link(c: Copies, a: u64, i: u64) -> u64
    requires { Indexes c.memo.now c.used c.index.now }
    ensures { result ≡ new_link (copies_in c.entry.memo.now c.entry.used) (link_at c.entry.image.now a i) }
{
    let to = link_at(c.image, a, i);
    link_by(c.memo, c.index, c.used, to)
}

// The place of the DL, 0 without data blocks.
fn dl_place(h: PlacedColumn) -> u64
    requires { h.cn + cn_length h < 18446744073709551616 }
    ensures { result ≡ if_eq h.blocks 0 0 (h.cn + cn_length h) }
{
    if h.blocks == 0 {
        0
    } else {
        h.cn + (160 + 8 * h.photos)
    }
}

// The DG at the front of d.
fn fill_dg(d: &mut [u8], c: Copies, h: PlacedColumn, next: u64)
    requires { (h.dg + 64 ≤ h.cn) × (h.cn + cn_length h < 18446744073709551616) × Indexes c.memo.now c.used c.index.now }
    ensures { d.new ≡ blit 0 (column_dg c.entry.image.now (copies_in c.entry.memo.now c.entry.used) h next) d.old }
{
    let dl = dl_place(h);
    let comment = link(c, h.parent, 3);
    put_dg(d, next, h.dg + 64, dl, comment);
}

// The CG.
fn fill_cg(d: &mut [u8], c: Copies, h: PlacedColumn)
    requires { Indexes c.memo.now c.used c.index.now }
    ensures { d.new ≡ blit 0 (column_cg c.entry.image.now (copies_in c.entry.memo.now c.entry.used) h) d.old }
{
    let name = link(c, h.group, 2);
    let source = link(c, h.group, 3);
    let comment = link(c, h.group, 5);
    let bytes = channel_bytes(c.image, h.channel);
    let inval = keeps_inval(c.image, h.group, h.channel);
    put_cg(
        d, c.image, h.group, h.cn, name, source, comment, h.remote, h.master, h.records, bytes,
        inval,
    );
}

// The CN up to its eighth link.
fn fill_front(d: &mut [u8], c: Copies, h: PlacedColumn)
    requires { Indexes c.memo.now c.used c.index.now × (h.photos ≤ 65535) }
    ensures { d.new ≡ blit 0 (column_front c.entry.image.now (copies_in c.entry.memo.now c.entry.used) h) d.old }
{
    let name = link(c, h.channel, 2);
    let source = link(c, h.channel, 3);
    let conversion = link(c, h.channel, 4);
    let unit = link(c, h.channel, 6);
    let comment = link(c, h.channel, 7);
    let size = 160 + 8 * h.photos;
    let links = 8 + h.photos;
    put_cn(
        d, size, links, name, source, conversion, h.sd, unit, comment,
    );
}

// Its data, past the references.
fn fill_data(d: &mut [u8], image: &[u8], h: PlacedColumn)
    requires { (h.photos ≤ 65535) × (cn_length h ≤ length d.old) }
    ensures { d.new ≡ blit (88 + 8 * h.photos) (column_data image.now h) d.old }
{
    let keeps = keeps_inval(image, h.group, h.channel);
    let p = (88 + 8 * h.photos) as usize;
    put_cn_data(&mut d[p..], image, h.channel, h.stored, keeps, h.photos);
}

// The CN; there are so many attachments.
fn fill_cn(d: &mut [u8], c: Copies, h: PlacedColumn)
    requires { Indexes c.memo.now c.used c.index.now × (h.photos ≤ 65535) × (cn_length h ≤ length d.old) × (c.attached ≤ 64) × (8192 ≤ length c.memo.now) }
    ensures { d.new ≡ blit 0 (column_cn c.entry.image.now (copies_in c.entry.memo.now c.entry.used)
        (attachments_in c.entry.memo.now c.entry.metadata c.entry.attached) h) d.old }
{
    fill_front(d, c, h);
    put_photos(
        d, c.image, c.memo, c.metadata, c.attached, h.channel, h.photos,
    );
    fill_data(d, c.image, h);
}

// The DG at its place, zeros before it; the index past it.
fn write_dg(out: &mut [u8], at: usize, c: Copies, h: PlacedColumn, next: u64) -> usize
    requires { (at ≤ h.dg) × (h.dg + 64 ≤ h.cn) × (h.cn + cn_length h ≤ length out.old) × Indexes c.memo.now c.used c.index.now }
    ensures { Wrote at (block h.dg (column_dg c.entry.image.now (copies_in c.entry.memo.now c.entry.used) h next) ∷ []) result
        out.old out.new }
{
    let to = h.dg as usize;
    gap(out, at, to);
    fill_dg(&mut out[to..], c, h, next);
    to + 64
}

// The CG.
fn write_cg(out: &mut [u8], at: usize, c: Copies, h: PlacedColumn) -> usize
    requires { (at ≤ h.dg + 64) × (h.cn ≡ h.dg + 64 + cg_length h.remote) × (h.cn ≤ length out.old) ×
        (data_at c.image.now h.group + 32 ≤ length c.image.now) × Indexes c.memo.now c.used c.index.now }
    ensures { Wrote at (block (h.dg + 64) (column_cg c.entry.image.now (copies_in c.entry.memo.now c.entry.used) h) ∷ []) result
        out.old out.new }
{
    let to = (h.dg + 64) as usize;
    gap(out, at, to);
    fill_cg(&mut out[to..], c, h);
    h.cn as usize
}

// The CN.
fn write_cn(out: &mut [u8], at: usize, c: Copies, h: PlacedColumn) -> usize
    requires { (at ≤ h.cn) × (h.cn + cn_length h ≤ length out.old) × (data_at c.image.now h.channel + 72 ≤ length c.image.now)
        × Indexes c.memo.now c.used c.index.now × (h.photos ≤ 65535) × (c.attached ≤ 64) × (8192 ≤ length c.memo.now) }
    ensures { Wrote at (block h.cn (column_cn c.entry.image.now (copies_in c.entry.memo.now c.entry.used)
        (attachments_in c.entry.memo.now c.entry.metadata c.entry.attached) h) ∷ []) result out.old out.new }
{
    let to = h.cn as usize;
    gap(out, at, to);
    fill_cn(&mut out[to..], c, h);
    to + (160 + 8 * h.photos) as usize
}

// The DL, if there are data blocks.
fn write_dl(out: &mut [u8], at: usize, h: PlacedColumn) -> usize
    requires { (at ≤ h.cn + cn_length h) × (h.cn + cn_length h + dl_size h.blocks ≤ length out.old) }
    ensures { Wrote at (column_d_ls h) result out.old out.new }
{
    let n = h.blocks;
    if n == 0 {
        return at;
    }
    let to = (h.cn + (160 + 8 * h.photos)) as usize;
    gap(out, at, to);
    put_dl(&mut out[to..], h.payload, n, h.first);
    to + (48 + 8 * n) as usize
}

// A column's blocks.
fn write_column(out: &mut [u8], at: usize, c: Copies, h: PlacedColumn, next: u64) -> usize
    requires { Room c.image.now h at (length out.old) × Indexes c.memo.now c.used c.index.now × (h.photos ≤ 65535) × (c.attached ≤ 64)
        × (8192 ≤ length c.memo.now) }
    ensures { Wrote at (column_parts c.entry.image.now (copies_in c.entry.memo.now c.entry.used) (attachments_in c.entry.memo.now c.entry.metadata c.entry.attached) h next) result
        out.old out.new }
{
    let a = write_dg(out, at, c, h, next);
    let b = write_cg(out, a, c, h);
    let past = write_cn(out, b, c, h);
    write_dl(out, past, h)
}

// The blocks of n columns, whose words columns and memo have, from index at on; the index past them.
pub(crate) fn write_structure(
    out: &mut [u8],
    at: usize,
    image: &[u8],
    photos: bool,
    table: &[u8],
    size: u64,
    columns: &[u64],
    memo: &[u64],
    n: u64,
    used: u64,
    metadata: u64,
    attached: u64,
) -> usize
    requires { StructureReady photos (on_table table.now) image.now size columns.now memo.now (attachments_in memo.now metadata attached) n used at
        (length out.old) × (attached ≤ 64) }
    ensures { Wrote at (structure_blocks (on_table table.now) image.now size (copies_in memo.now used)
        (attachments_in memo.now metadata attached) (placed_in photos image.now columns.now memo.now 0 n)
        (placed_in photos image.now columns.now memo.now 0 n)) result
        out.old out.new }
{
    let index = index_copies(memo, used);
    let copies = Copies {
        image,
        memo,
        index: &index,
        used,
        metadata,
        attached,
    };
    let mut to = at;
    for k in 0..n {
        let h = column_of(image, photos, table, size, columns, memo, n, k);
        let next = next_place(memo, n, k);
        to = write_column(out, to, copies, h, next);
    }
    to
}
