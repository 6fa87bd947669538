// The columns, out of the words in which planning keeps them: sizes and places.
ghost use Rattle.std.specs.Prelude.{◌≡◌, [], ◌∷◌, ◌+◌, ◌≤◌, length};
ghost use Rattle.base.specs.Blit.{blit};
ghost use Rattle.base.specs.Choice.{if_eq};
ghost use Rattle.plan.specs.Layout.{dl_size};
ghost use Rattle.plan.specs.Geometry.{align_to};
ghost use Rattle.placing.specs.InWords.{width_at, blocks_at, payload_at, cg_bytes, structure_at, blocks_end_at, signal_at, signal_end_at};
ghost use Rattle.placing.specs.InWords.{structures_in, data_in, placed_in, AllWithin, AllFew};

use channels::{block_count, width_of};
use copier::columns::word;
use copier::memo::aligned;
use photos::photos_of;
use planning::sizes::signal_size;

// What places the columns of a plan: the image, the unit of data, whether references to attachments are kept, the block size, and the words of
// fragments and of n columns.
#[derive(Clone, Copy)]
pub(crate) struct Columns<'a> {
    pub(crate) image: &'a [u8],
    pub(crate) unit: u64,
    pub(crate) photos: bool,
    pub(crate) size: u64,
    pub(crate) fragments: &'a [u64],
    pub(crate) words: &'a [u64],
    pub(crate) n: u64,
}

// Bytes of a CG, by the word of its master.
pub fn cg_bytes(master: u64) -> u64
    ensures { result ≡ cg_bytes master }
{
    if master == 0 { 104 } else { 112 }
}

// Bytes of a DL of n blocks: none without blocks.
fn dl_bytes(n: u64) -> u64
    requires { n ≤ 4294967295 }
    ensures { result ≡ dl_size n }
{
    if n == 0 { 0 } else { 24 + 8 * (n + 1) + 16 }
}

// Bytes of a record of the column with words from p on.
fn width_at(c: Columns, p: u64) -> u64
    requires { p ≤ 4096 }
    ensures { result ≡ width_at c.entry.image.now c.entry.words.now p }
{
    width_of(c.image, word(c.words, p + 1), word(c.words, p))
}

// Its data blocks.
fn blocks_at(c: Columns, p: u64) -> u64
    requires { p ≤ 4096 }
    ensures { result ≡ blocks_at c.entry.image.now c.entry.size c.entry.words.now p }
{
    block_count(c.size, width_at(c, p), word(c.words, p + 3))
}

// Its DG, CG, CN and DL.
fn structure_at(c: Columns, p: u64) -> u64
    requires { (p ≤ 4096) × (blocks_at c.image.now c.size c.words.now p ≤ 4294967295) }
    ensures { result ≡ structure_at c.entry.photos c.entry.image.now c.entry.size c.entry.words.now p }
{
    let cg = cg_bytes(word(c.words, p + 5));
    let references = photos_of(c.photos, c.image, word(c.words, p));
    let dl = dl_bytes(blocks_at(c, p));
    64 + cg + (160 + 8 * references) + dl
}

// Past its data blocks, which begin at d.
fn blocks_end(c: Columns, p: u64, d: u64) -> u64
    requires { (p ≤ 4096) × (d ≤ 1152921504606846976) × (blocks_at c.image.now c.size c.words.now p ≤ 4294967295)
        × (payload_at c.image.now c.words.now p ≤ 4398046511104) }
    ensures { result ≡ blocks_end_at c.entry.image.now c.entry.size c.entry.words.now p d }
{
    let blocks = blocks_at(c, p);
    let payload = width_at(c, p) * word(c.words, p + 3);
    aligned(d + (24 * blocks + payload))
}

// Where so many blocks begin, past d: on a unit, if there are any.
fn first_past(count: u64, unit: u64, d: u64) -> u64
    requires { (8 ≤ unit) × (unit ≤ 4096) × (d ≤ 1152921504606846976) }
    ensures { result ≡ if_eq count 0 d (align_to unit d) }
{
    if count == 0 {
        d
    } else {
        (d + (unit - 1)) / unit * unit
    }
}

// Past its SD, which begins at d.
fn signal_end(c: Columns, p: u64, d: u64) -> u64
    requires { (p ≤ 4096) × (d ≤ 1152921504606846976)
        × (signal_at c.words.now c.fragments.now p ≤ 4398046511104) }
    ensures { result ≡ signal_end_at c.entry.words.now c.entry.fragments.now p d }
{
    let first = word(c.words, p + 6);
    if first == 0 {
        return d;
    }
    let bytes = signal_size(c.fragments, first, word(c.words, p + 7));
    aligned(d + (24 + bytes))
}

// Past the DG, CG, CN and DL of all columns, which begin at a.
pub(crate) fn structure_end(c: Columns, a: u64) -> u64
    requires { (c.n ≤ 512) × (a ≤ 1125899906842624) × AllFew c.photos c.image.now c.size c.words.now 0 c.n }
    ensures { result ≡ structures_in c.entry.photos c.entry.image.now c.entry.size c.entry.words.now 0 c.entry.n a }
{
    let mut end = a;
    for k in 0..c.n {
        end += structure_at(c, 8 * k);
    }
    end
}

// The three words of a placed column, from word q on.
fn put_place(memo: &mut [u64], q: usize, dg: u64, first: u64, sd: u64)
    requires { q + 3 ≤ length memo.old }
    ensures { memo.new ≡ blit q (dg ∷ first ∷ sd ∷ []) memo.old }
{
    memo[q] = dg;
    memo[q + 1] = first;
    memo[q + 2] = sd;
}

// The places of all columns, whose DG begin at a and whose data begin at d, in the words from 6656 on; past their data.
pub(crate) fn place_columns(c: Columns, memo: &mut [u64], a: u64, d: u64) -> u64
    requires { (c.n ≤ 512) × (a ≤ 1125899906842624) × (d ≤ 1125899906842624) × (8192 ≤ length memo.old)
        × AllWithin c.photos c.image.now c.size c.words.now c.fragments.now 0 c.n × (8 ≤ c.unit) × (c.unit ≤ 4096) }
    ensures end { result ≡ data_in c.entry.unit c.entry.image.now c.entry.size c.entry.words.now c.entry.fragments.now 0 c.entry.n d }
    ensures words { memo.new ≡ blit 6656 (placed_in c.entry.unit c.entry.photos c.entry.image.now c.entry.size c.entry.words.now
        c.entry.fragments.now 0 c.entry.n a d) memo.old }
{
    let mut dg = a;
    let mut past = d;
    for k in 0..c.n {
        let p = 8 * k;
        let first = first_past(blocks_at(c, p), c.unit, past);
        let end = blocks_end(c, p, first);
        let sd = first_past(word(c.words, p + 6), c.unit, end);
        put_place(memo, (6656 + 3 * k) as usize, dg, first, sd);
        dg += structure_at(c, p);
        past = signal_end(c, p, sd);
    }
    past
}
