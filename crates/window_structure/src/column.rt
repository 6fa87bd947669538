// A column's DG, CG, CN and DL over a window of the file that begins at index a. Links are looked up only for a block that lies in the window.
ghost use Rattle.std.specs.Prelude.{◌≡◌, ◌+◌, ◌*◌, ◌≤◌, length};
ghost use Rattle.base.specs.Choice.{if_eq};
ghost use Rattle.mdf.specs.Block.{link_at};
ghost use Rattle.copier.specs.Standing.{copies_in};
ghost use Rattle.copier.specs.Index.{Indexes};
ghost use Rattle.result.specs.Fill.{new_link};
ghost use Rattle.stores.specs.Over.{over};
ghost use Rattle.windows.specs.Windowed.{over_all};
ghost use Rattle.window_copies.specs.Attachments.{attachments_in};
ghost use Rattle.writing.specs.Structure.{Bounded, cn_length, column_dg, column_cg, column_front, column_data, column_cn, column_d_ls, column_parts};

use blocks::block::link_at;
use channels::{channel_bytes, keeps_inval};
use copier::memo::link_by;
use window_blocks::{apart, lay_cg, lay_cn, lay_cn_data, lay_dg, lay_dl};
use window_photos::lay_photos;
use writing::placed::PlacedColumn;

// What was copied: the words of the copies, the index over so many of them, and where the attachments stand, so many.
#[derive(Clone, Copy)]
pub(crate) struct Copied<'a> {
    pub(crate) memo: &'a [u64],
    pub(crate) index: &'a [u16; 4096],
    pub(crate) used: u64,
    pub(crate) metadata: u64,
    pub(crate) attached: u64,
    ghost indexed: { Indexes memo.now used index.now },
    ghost few: { attached ≤ 64 },
    ghost long: { 8192 ≤ length memo.now },
}

impl Copied<'_> {
    // Link i of the block at x, led to its copy.
    fn link(&self, image: &[u8], x: u64, i: u64) -> u64
        ensures { result ≡ new_link (copies_in self.now.memo.now self.now.used) (link_at image.now x i) }
    {
        link_by(self.memo, self.index, self.used, link_at(image, x, i))
    }
}

// The place of the DL, 0 without data blocks.
fn dl_place(h: PlacedColumn) -> u64
    requires { Bounded h }
    ensures { result ≡ if_eq h.blocks 0 0 (h.cn + cn_length h) }
{
    if h.blocks == 0 {
        0
    } else {
        h.cn + (160 + 8 * h.photos)
    }
}

// The DG.
fn lay_column_dg(
    w: &mut [u8],
    a: u64,
    image: &[u8],
    copied: &Copied<'_>,
    h: PlacedColumn,
    next: u64,
)
    requires { Bounded h }
    ensures { w.new ≡ over a h.dg (column_dg image.now (copies_in copied.now.memo.now copied.now.used) h next) w.old }
{
    if apart(w.len(), a, h.dg, 64) {
        return;
    }
    let dl = dl_place(h);
    let comment = copied.link(image, h.parent, 3);
    lay_dg(w, a, h.dg, next, h.dg + 64, dl, comment);
}

// The CG.
fn lay_column_cg(w: &mut [u8], a: u64, image: &[u8], copied: &Copied<'_>, h: PlacedColumn)
    requires { Bounded h }
    ensures { w.new ≡ over a (h.dg + 64) (column_cg image.now (copies_in copied.now.memo.now copied.now.used) h) w.old }
{
    let at = h.dg + 64;
    if apart(w.len(), a, at, 112) {
        return;
    }
    let name = copied.link(image, h.group, 2);
    let source = copied.link(image, h.group, 3);
    let comment = copied.link(image, h.group, 5);
    let bytes = channel_bytes(image, h.channel);
    let inval = keeps_inval(image, h.group, h.channel);
    lay_cg(
        w, a, at, image, h.group, h.cn, name, source, comment, h.remote, h.master, h.records,
        bytes, inval,
    );
}

// The CN up to its eighth link.
fn lay_front(w: &mut [u8], a: u64, image: &[u8], copied: &Copied<'_>, h: PlacedColumn)
    requires { Bounded h }
    ensures { w.new ≡ over a h.cn (column_front image.now (copies_in copied.now.memo.now copied.now.used) h) w.old }
{
    if apart(w.len(), a, h.cn, 88) {
        return;
    }
    let name = copied.link(image, h.channel, 2);
    let source = copied.link(image, h.channel, 3);
    let conversion = copied.link(image, h.channel, 4);
    let unit = copied.link(image, h.channel, 6);
    let comment = copied.link(image, h.channel, 7);
    lay_cn(
        w,
        a,
        h.cn,
        160 + 8 * h.photos,
        8 + h.photos,
        name,
        source,
        conversion,
        h.sd,
        unit,
        comment,
    );
}

// Its data, past the references.
fn lay_column_data(w: &mut [u8], a: u64, image: &[u8], h: PlacedColumn)
    requires { Bounded h }
    ensures { w.new ≡ over a (h.cn + 88 + 8 * h.photos) (column_data image.now h) w.old }
{
    let at = h.cn + 88 + 8 * h.photos;
    if apart(w.len(), a, at, 72) {
        return;
    }
    let keeps = keeps_inval(image, h.group, h.channel);
    lay_cn_data(w, a, at, image, h.channel, h.stored, keeps, h.photos);
}

// The CN; there are so many attachments.
fn lay_column_cn(w: &mut [u8], a: u64, image: &[u8], copied: &Copied<'_>, h: PlacedColumn)
    requires { Bounded h }
    ensures { w.new ≡ over a h.cn (column_cn image.now (copies_in copied.now.memo.now copied.now.used)
        (attachments_in copied.now.memo.now copied.now.metadata copied.now.attached) h) w.old }
{
    lay_front(w, a, image, copied, h);
    lay_photos(
        w,
        a,
        h.cn + 88,
        image,
        copied.memo,
        copied.metadata,
        copied.attached,
        h.channel,
        h.photos,
    );
    lay_column_data(w, a, image, h);
}

// The DL, if there are data blocks.
pub(crate) fn lay_column_dl(w: &mut [u8], a: u64, h: PlacedColumn)
    requires { Bounded h }
    ensures { w.new ≡ over_all a (column_d_ls h) w.old }
{
    let n = h.blocks;
    if n == 0 {
        return;
    }
    let at = h.cn + (160 + 8 * h.photos);
    lay_dl(w, a, at, h.payload, n, h.first);
}

// A column's blocks.
pub(crate) fn lay_column(
    w: &mut [u8],
    a: u64,
    image: &[u8],
    copied: &Copied<'_>,
    h: PlacedColumn,
    next: u64,
)
    requires { Bounded h }
    ensures { w.new ≡ over_all a (column_parts image.now (copies_in copied.now.memo.now copied.now.used)
        (attachments_in copied.now.memo.now copied.now.metadata copied.now.attached) h next) w.old }
{
    lay_column_dg(w, a, image, copied, h, next);
    lay_column_cg(w, a, image, copied, h);
    lay_column_cn(w, a, image, copied, h);
    lay_column_dl(w, a, h);
}
