// The data blocks of a column, written whole, in address order.
ghost use Rattle.std.specs.Prelude.{true, ◌≡◌, length};
ghost use Rattle.mdf.specs.Records.{size_of};
ghost use Rattle.work_words.specs.Words.{fragments_of};
ghost use Rattle.plan.specs.Channel.{fits};
ghost use Rattle.result.specs.Fill.{data_kind};
ghost use Rattle.places.specs.Stretch.{number_in};
ghost use Rattle.places.specs.Pool.{KeepsRight};
ghost use Rattle.cells.specs.Spot.{Readable};
ghost use Rattle.data_blocks.specs.Region.{Formed};
ghost use Rattle.data_blocks.specs.Written.{FormOf, IfRoom, PutRecords, Prepares};
ghost use Rattle.data_blocks.specs.Blocks.{WritesBlocks};

use crate::by::{by_pool, by_several, by_sorted};
use crate::listed::by_offsets;
use crate::piece::Form;
use crate::total::total_of;
use cells::cell::shape_of;
use cells::run::product_within;
use channels::{block_count, fits_in, per_full};
use offsets::fill::fill_offsets;
use offsets::kept::{Offsets, offsets_of};
use places::pass::fill;
use places::pool::find;

// A column: its DG, its CG, its CN, and how many records it has.
#[derive(Clone, Copy)]
pub struct Column {
    pub parent: u64,
    pub group: u64,
    pub channel: u64,
    pub records: u64,
}

// DT with, DV without, an invalidation byte.
fn data_kind(keep: bool) -> u64
    ensures { result ≡ data_kind keep }
{
    if keep { 0x5444_2323 } else { 0x5644_2323 }
}

// The number of the group at g among groups, or how many they are.
pub fn number_in(groups: &[u64], g: u64) -> u64
    ensures { result ≡ number_in g groups.now }
{
    for i in 0..groups.len() {
        if groups[i] == g {
            return i as u64;
        }
    }
    groups.len() as u64
}

// How the column's blocks are formed, if its channel fits.
pub fn form_of(image: &[u8], size: u64, c: Column) -> Form
    ensures { fits image.now c.group c.channel ≡ true → FormOf image.now size c result }
{
    let shape = shape_of(image, c.group, c.channel);
    let kind = data_kind(shape.keep);
    let per = per_full(size, shape.width, c.records);
    let blocks = block_count(size, shape.width, c.records);
    Form {
        shape,
        kind,
        per,
        blocks,
        records: c.records,
    }
}

// Whether so many bytes have room for the blocks.
pub fn has_room(room: u64, f: Form) -> bool
    ensures { IfRoom room f result }
{
    let w = f.shape.width;
    w != 0 && product_within(f.records, w, room) && f.blocks <= (room - f.records * w) / 24
}

// Stretches of the DG's groups come to be kept, if none of the group at g is.
pub fn prepare(pool: &mut [u64], image: &[u8], d: u64, g: u64, groups: &[u64], fragments: &[u64])
    ensures { KeepsRight image.now d groups.now fragments.now pool.old pool.new }
{
    let first = find(pool, d, g, 0, 0);
    if first.stretch.count != 0 {
        return;
    }
    fill(pool, image, d, groups, fragments);
}

// Where the offsets of the records of the group at g of the DG at d stand; those of all groups of the DG come to be kept, if they have room.
pub fn prepare_offsets(
    words: &mut [u64],
    image: &[u8],
    d: u64,
    g: u64,
    groups: &[u64],
    counts: &[u64],
    fragments: &[u64],
) -> Offsets
    ensures { Prepares image.now d g groups.now fragments.now words.old words.new result }
{
    let before = offsets_of(words, d, g);
    if before.known {
        return before;
    }
    fill_offsets(words, image, d, groups, counts, fragments);
    offsets_of(words, d, g)
}

// The records of the column's group, one of several: by kept stretches, by kept offsets, by framing.
fn among(
    out: &mut [u8],
    image: &[u8],
    groups: &[u64],
    counts: &[u64],
    fragments: &[u64],
    pool: &mut [u64],
    words: &mut [u64],
    c: Column,
    f: Form,
    size: u64,
)
    requires { Readable image.now fragments.now f.shape × Formed image.now f (length out.old)
        × (size ≡ size_of (fragments_of fragments.now)) × (length groups.now ≡ 1 → ⊥) }
    ensures { PutRecords image.now groups.now fragments.now c f pool.old pool.new
        words.old words.new out.old out.new }
{
    prepare(pool, image, c.parent, c.group, groups, fragments);
    let done = by_pool(out, image, c.parent, c.group, fragments, pool, f, size);
    if done == f.records {
        return;
    }
    let o = prepare_offsets(words, image, c.parent, c.group, groups, counts, fragments);
    let further = by_offsets(
        out, image, fragments, words, o.first, o.count, f, size, done,
    );
    if further == f.records {
        return;
    }
    let k = number_in(groups, c.group);
    by_several(out, image, c.parent, groups, k, fragments, f, size, further);
}

// The records of the column's group.
fn put_records(
    out: &mut [u8],
    image: &[u8],
    groups: &[u64],
    counts: &[u64],
    fragments: &[u64],
    pool: &mut [u64],
    words: &mut [u64],
    c: Column,
    f: Form,
    size: u64,
)
    requires { Readable image.now fragments.now f.shape × Formed image.now f (length out.old)
        × (size ≡ size_of (fragments_of fragments.now)) }
    ensures { PutRecords image.now groups.now fragments.now c f pool.old pool.new
        words.old words.new out.old out.new }
{
    if groups.len() == 1 {
        by_sorted(out, image, c.parent, groups[0], fragments, f, size);
        return;
    }
    among(
        out, image, groups, counts, fragments, pool, words, c, f, size,
    );
}

// The blocks of the column c, at the front of out; its DG has these groups, and fragments, three words each. pool keeps stretches of records,
// words the offset of each record; counts tells how many records each group is thought to have.
pub fn write_blocks(
    out: &mut [u8],
    image: &[u8],
    size: u64,
    groups: &[u64],
    counts: &[u64],
    fragments: &[u64],
    pool: &mut [u64],
    words: &mut [u64],
    c: Column,
)
    ensures { WritesBlocks image.now size groups.now fragments.now c pool.old
        pool.new words.old words.new out.old out.new }
{
    if !fits_in(image, c.group, c.channel) {
        return;
    }
    let f = form_of(image, size, c);
    if f.blocks == 0 {
        return;
    }
    if !has_room(out.len() as u64, f) {
        return;
    }
    let Some(bytes) = total_of(image, fragments) else {
        return;
    };
    put_records(
        out, image, groups, counts, fragments, pool, words, c, f, bytes,
    );
}
