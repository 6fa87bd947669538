// Every kept column's DG, CG, CN and DL, one after the other without gaps.
ghost use Rattle.std.specs.Prelude.{◌≡◌, ◌+◌, ◌*◌, ◌≤◌, ◌<◌, length};
ghost use Rattle.base.specs.Blit.{blit};
ghost use Rattle.base.specs.Choice.{if_eq};
ghost use Rattle.mdf.specs.Block.{link_at};
ghost use Rattle.copier.specs.Standing.{copies_in};
ghost use Rattle.result.specs.Fill.{new_link};
ghost use Rattle.window_copies.specs.Attachments.{attachments_in};
ghost use Rattle.write_copies.specs.Wrote.{Wrote};
ghost use Rattle.thinning.specs.Led.{copies_of, attachments_of, structure_of};
ghost use Rattle.thinning.specs.Touching.{laid};
ghost use Rattle.thinning.specs.Column.{Near, Bounded};
ghost use Rattle.thinning.specs.Structure.{cn_length, dg_by, cg_by, front_by, cn_by, lists_by, parts_by, StructureReady};

use crate::column::{KeptColumn, column_of, next_place};
use crate::decided::Decided;
use crate::led::Led;
use blocks::block::link_at;
use copier::memo::{index_copies, link_by};
use filling::{put_cn, put_cut_data, put_dl};
use thin_blocks::kept::{put_kept_cg, put_kept_dg};
use write_copies::gap::gap;
use write_copies::led::put_photos;

// Link i of the block at a, led to its copy.
fn link(led: &Led, a: u64, i: u64) -> u64
    ensures { result ≡ new_link (copies_of led.now) (link_at led.now.image.now a i) }
{
    let to = link_at(led.image, a, i);
    link_by(led.memo, led.index, led.used, to)
}

// The place of the DL, 0 without data blocks.
fn dl_place(h: KeptColumn) -> u64
    requires { Bounded h }
    ensures { result ≡ if_eq h.blocks 0 0 (h.cn + cn_length h) }
{
    if h.blocks == 0 {
        0
    } else {
        h.cn + (160 + 8 * h.photos)
    }
}

// The DG at the front of d.
fn fill_dg(d: &mut [u8], led: &Led, h: KeptColumn, next: u64)
    requires { Bounded h }
    ensures { d.new ≡ blit 0 (dg_by led.now.image.now (copies_of led.now) h next) d.old }
{
    let dl = dl_place(h);
    let comment = link(led, h.parent, 3);
    put_kept_dg(d, led.image, h.parent, next, h.dg + 64, dl, comment);
}

// The CG.
fn fill_cg(d: &mut [u8], led: &Led, h: KeptColumn)
    ensures { d.new ≡ blit 0 (cg_by led.now.image.now (copies_of led.now) h) d.old }
{
    let name = link(led, h.group, 2);
    let source = link(led, h.group, 3);
    let comment = link(led, h.group, 5);
    put_kept_cg(
        d, led.image, h.group, h.cn, name, source, comment, h.remote, h.master,
    );
}

// The CN up to its eighth link.
fn fill_front(d: &mut [u8], led: &Led, h: KeptColumn)
    requires { Bounded h }
    ensures { d.new ≡ blit 0 (front_by led.now.image.now (copies_of led.now) h) d.old }
{
    let name = link(led, h.channel, 2);
    let source = link(led, h.channel, 3);
    let conversion = link(led, h.channel, 4);
    let unit = link(led, h.channel, 6);
    let comment = link(led, h.channel, 7);
    let size = 160 + 8 * h.photos;
    let links = 8 + h.photos;
    put_cn(
        d, size, links, name, source, conversion, h.sd, unit, comment,
    );
}

// The CN.
fn fill_cn(d: &mut [u8], led: &Led, h: KeptColumn)
    requires { Bounded h }
    ensures { d.new ≡ blit 0 (cn_by led.now.image.now (copies_of led.now)
        (attachments_of led.now) h) d.old }
{
    fill_front(d, led, h);
    put_photos(
        d,
        led.image,
        led.memo,
        led.metadata,
        led.attached,
        h.channel,
        h.photos,
    );
    put_cut_data(d, (88 + 8 * h.photos) as usize, 72, led.image, h.channel);
}

// The DG at its place.
fn put_dg(out: &mut [u8], led: &Led, h: KeptColumn, next: u64)
    requires { Bounded h }
    ensures { out.new ≡ blit h.dg (dg_by led.now.image.now (copies_of led.now) h next) out.old }
{
    let to = h.dg as usize;
    if out.len() <= to {
        return;
    }
    fill_dg(&mut out[to..], led, h, next);
}

// The CG.
fn put_cg(out: &mut [u8], led: &Led, h: KeptColumn)
    requires { Bounded h }
    ensures { out.new ≡ blit (h.dg + 64) (cg_by led.now.image.now (copies_of led.now) h) out.old }
{
    let to = (h.dg + 64) as usize;
    if out.len() <= to {
        return;
    }
    fill_cg(&mut out[to..], led, h);
}

// The CN.
fn put_channel(out: &mut [u8], led: &Led, h: KeptColumn)
    requires { Bounded h }
    ensures { out.new ≡ blit h.cn (cn_by led.now.image.now (copies_of led.now)
        (attachments_of led.now) h) out.old }
{
    let to = h.cn as usize;
    if out.len() <= to {
        return;
    }
    fill_cn(&mut out[to..], led, h);
}

// The DL, if there are data blocks.
fn put_list(out: &mut [u8], h: KeptColumn)
    requires { Bounded h }
    ensures { out.new ≡ laid (lists_by h) out.old }
{
    let n = h.blocks;
    if n == 0 {
        return;
    }
    let to = (h.cn + (160 + 8 * h.photos)) as usize;
    if out.len() <= to {
        return;
    }
    put_dl(&mut out[to..], h.payload, n, h.first);
}

// A column's blocks.
fn put_column(out: &mut [u8], led: &Led, h: KeptColumn, next: u64)
    requires { Bounded h }
    ensures { out.new ≡ laid (parts_by led.now.image.now (copies_of led.now)
        (attachments_of led.now) h next) out.old }
{
    put_dg(out, led, h, next);
    put_cg(out, led, h);
    put_channel(out, led, h);
    put_list(out, h);
}

// The blocks of all columns, each at its place.
pub(crate) fn put_structure(out: &mut [u8], file: &Decided)
    requires { Near file.now.memo.now file.now.numbers.columns × (4096 ≤ length file.now.columns.now)
        × (file.now.numbers.attachments ≤ 64) }
    ensures { out.new ≡ laid (structure_of file.now) out.old }
{
    let index = index_copies(file.memo, file.numbers.copies);
    let led = Led {
        image: file.image,
        memo: file.memo,
        index: &index,
        used: file.numbers.copies,
        metadata: file.numbers.metadata,
        attached: file.numbers.attachments,
    };
    for k in 0..file.numbers.columns {
        let h = column_of(file, k);
        let next = next_place(file, k);
        put_column(out, &led, h, next);
    }
}

// Zeros from at up to the first column, then the blocks of all; the answer is past them.
pub(crate) fn write_structure(out: &mut [u8], at: usize, file: &Decided) -> usize
    requires { StructureReady file.now.image.now (copies_in file.now.memo.now file.now.numbers.copies)
        (attachments_in file.now.memo.now file.now.numbers.metadata file.now.numbers.attachments)
        file.now.columns.now file.now.memo.now file.now.numbers.columns at file.now.numbers.metadata_end
        × (file.now.numbers.attachments ≤ 64) }
    ensures { Wrote at (structure_of file.now) result out.old out.new }
{
    if file.numbers.columns == 0 {
        return at;
    }
    gap(out, at, file.memo[6656] as usize);
    put_structure(out, file);
    file.numbers.metadata_end as usize
}
