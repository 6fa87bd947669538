// The data blocks of a column over a window.
ghost use Rattle.std.specs.Prelude.{◌≡◌, length};
ghost use Rattle.mdf.specs.Records.{most64, size_of};
ghost use Rattle.work_words.specs.Words.{fragments_of};
ghost use Rattle.places.specs.Pool.{KeepsRight};
ghost use Rattle.cells.specs.Spot.{Readable};
ghost use Rattle.data_blocks.specs.Region.{Formed};
ghost use Rattle.window_data.specs.Blocks.{LaysRecords, LaysBlocks};

use crate::kept::{lay_offsets, lay_pool};
use crate::several::lay_several;
use crate::sorted::{lay_sorted, record_from};
use channels::fits_in;
use data_blocks::column::{Column, form_of, has_room, number_in, prepare, prepare_offsets};
use data_blocks::piece::Form;
use data_blocks::total::total_of;
use offsets::kept::offsets_of;

// Stretches of the DG's groups come to be kept, if neither stretches nor offsets of the group at g are.
fn keep_stretches(
    pool: &mut [u64],
    words: &[u64],
    image: &[u8],
    d: u64,
    g: u64,
    groups: &[u64],
    fragments: &[u64],
)
    ensures { KeepsRight image.now d groups.now fragments.now pool.old pool.new }
{
    let kept = offsets_of(words, d, g);
    if kept.known {
        return;
    }
    prepare(pool, image, d, g, groups, fragments);
}

// The records of the column's group, one of several: by kept stretches, by kept offsets, by framing.
fn lay_among(
    w: &mut [u8],
    a: u64,
    image: &[u8],
    groups: &[u64],
    counts: &[u64],
    fragments: &[u64],
    pool: &mut [u64],
    words: &mut [u64],
    c: Column,
    f: Form,
    size: u64,
)
    requires { Readable image.now fragments.now f.shape × Formed image.now f most64
        × (size ≡ size_of (fragments_of fragments.now)) × (length groups.now ≡ 1 → ⊥) }
    ensures { LaysRecords a image.now groups.now fragments.now c f pool.old pool.new
        words.old words.new w.old w.new }
{
    keep_stretches(pool, words, image, c.parent, c.group, groups, fragments);
    let r = record_from(f, a);
    let done = lay_pool(w, a, image, c.parent, c.group, fragments, pool, f, size, r);
    if done == f.records {
        return;
    }
    let o = prepare_offsets(words, image, c.parent, c.group, groups, counts, fragments);
    let further = lay_offsets(
        w, a, image, fragments, words, o.first, o.count, f, size, done,
    );
    if further == f.records {
        return;
    }
    let k = number_in(groups, c.group);
    lay_several(
        w, a, image, c.parent, groups, k, fragments, f, size, further,
    );
}

// The records of the column's group.
fn lay_records(
    w: &mut [u8],
    a: u64,
    image: &[u8],
    groups: &[u64],
    counts: &[u64],
    fragments: &[u64],
    pool: &mut [u64],
    words: &mut [u64],
    c: Column,
    f: Form,
    size: u64,
)
    requires { Readable image.now fragments.now f.shape × Formed image.now f most64
        × (size ≡ size_of (fragments_of fragments.now)) }
    ensures { LaysRecords a image.now groups.now fragments.now c f pool.old pool.new
        words.old words.new w.old w.new }
{
    if groups.len() == 1 {
        lay_sorted(w, a, image, c.parent, groups[0], fragments, f, size);
        return;
    }
    lay_among(
        w, a, image, groups, counts, fragments, pool, words, c, f, size,
    );
}

// The blocks of the column c over w, which begins at index a of them; its DG has these groups, and fragments, three words each. pool keeps
// stretches of records, words the offset of each record; counts tells how many records each group is thought to have.
pub fn lay_blocks(
    w: &mut [u8],
    a: u64,
    image: &[u8],
    size: u64,
    groups: &[u64],
    counts: &[u64],
    fragments: &[u64],
    pool: &mut [u64],
    words: &mut [u64],
    c: Column,
)
    ensures { LaysBlocks a image.now size groups.now fragments.now c pool.old
        pool.new words.old words.new w.old w.new }
{
    if !fits_in(image, c.group, c.channel) {
        return;
    }
    let f = form_of(image, size, c);
    if f.blocks == 0 {
        return;
    }
    if !has_room(u64::MAX, f) {
        return;
    }
    let Some(bytes) = total_of(image, fragments) else {
        return;
    };
    lay_records(
        w, a, image, groups, counts, fragments, pool, words, c, f, bytes,
    );
}
