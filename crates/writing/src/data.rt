// The data blocks and signal data of columns, in address order: of each column zeros and its data blocks, zeros and its SD.
ghost use Rattle.std.specs.Prelude.{◌≡◌, ◌+◌, ◌-◌, ◌*◌, ◌<◌, ◌≤◌, [], ◌∷◌, length, ◌≢◌};
ghost use Rattle.base.specs.Blit.{blit};
ghost use Rattle.mdf.specs.Block.{kind_sd};
ghost use Rattle.work_words.specs.Words.{fragments_of};
ghost use Rattle.mdf.specs.Records.{joined};
ghost use Rattle.result.specs.Fill.{block, block_of};
ghost use Rattle.result.specs.Ordered.{Ordered};
ghost use Rattle.write_copies.specs.Wrote.{Wrote};
ghost use Rattle.writing.specs.Own.{OwnOf};
ghost use Rattle.writing.specs.Data.{entry_in, entry_bytes, entry_blocks, entry_signal, data_from, Tables, EntryReady, DataReady, Kept};

use crate::own::{Own, known_first, known_of};
use crate::signal::{joined_size, write_signal};
use channels::{block_count, width_of};
use data_blocks::column::{Column, write_blocks};
use offsets::kept::forget;
use write_copies::gap::gap;

// What data is taken from: the image, the block size, and the words of n items and of nf fragments.
#[derive(Clone, Copy)]
pub(crate) struct Recording<'a> {
    pub(crate) image: &'a [u8],
    pub(crate) size: u64,
    pub(crate) source: &'a [u64],
    pub(crate) n: u64,
    pub(crate) fragments: &'a [u64],
    pub(crate) nf: u64,
}

// A column: its CN, CG and DG, its number of records; the number of fragments before its signal data's and 1, or 0 for none, and how many
// those are; the places of its first data block and of its SD.
#[derive(Clone, Copy)]
pub struct Entry {
    pub channel: u64,
    pub group: u64,
    pub parent: u64,
    pub records: u64,
    pub signal: u64,
    pub pieces: u64,
    pub first: u64,
    pub sd: u64,
}

// Column k.
pub(crate) fn entry_at(columns: &[u64], memo: &[u64], k: u64) -> Entry
    requires { (8 * k + 8 ≤ length columns.now) × (6656 + 3 * k + 3 ≤ length memo.now) }
    ensures { result ≡ entry_in columns.now memo.now k }
{
    let i = (8 * k) as usize;
    let p = (6656 + 3 * k) as usize;
    Entry {
        channel: columns[i],
        group: columns[i + 1],
        parent: columns[i + 2],
        records: columns[i + 3],
        signal: columns[i + 6],
        pieces: columns[i + 7],
        first: memo[p + 1],
        sd: memo[p + 2],
    }
}

// The same of any words, where there are as many as it takes.
pub fn entry_of(columns: &[u64], memo: &[u64], k: u64) -> Entry
    ensures { k < 512 → 4096 ≤ length columns.now → 8192 ≤ length memo.now
        → result ≡ entry_in columns.now memo.now k }
{
    let none = Entry {
        channel: 0,
        group: 0,
        parent: 0,
        records: 0,
        signal: 0,
        pieces: 0,
        first: 0,
        sd: 0,
    };
    if 511 < k || columns.len() < 4096 || memo.len() < 8192 {
        return none;
    }
    entry_at(columns, memo, k)
}

// The data blocks of column e, at the front of out; o is what is held of its DG.
fn put_blocks(out: &mut [u8], r: Recording, pool: &mut [u64], words: &mut [u64], e: Entry, o: Own)
    requires { Tables r.source.now r.fragments.now r.nf × EntryReady r.image.now r.source.now r.n r.fragments.now r.nf e
        × (length (entry_bytes r.image.now r.size r.source.now r.n r.fragments.now r.nf e) ≤ length out.old)
        × Kept r.image.now r.source.now r.n r.fragments.now r.nf pool.old words.old × OwnOf r.source.now r.n r.nf e.parent o }
    ensures { Kept r.entry.image.now r.entry.source.now r.entry.n r.entry.fragments.now r.entry.nf pool.new words.new
        × (out.new ≡ blit 0 (entry_bytes r.entry.image.now r.entry.size r.entry.source.now r.entry.n r.entry.fragments.now r.entry.nf e)
        out.old) }
{
    let p = (3 * o.begin) as usize;
    let q = (3 * o.end) as usize;
    let f = (3072 + o.first) as usize;
    let l = f + o.groups as usize;
    let g = f + 512;
    let h = l + 512;
    write_blocks(
        out,
        r.image,
        r.size,
        &r.source[f..l],
        &r.source[g..h],
        &r.fragments[p..q],
        pool,
        words,
        Column {
            parent: e.parent,
            group: e.group,
            channel: e.channel,
            records: e.records,
        },
    );
}

// Zeros from at up to its data blocks, then these; the answer is past them.
fn write_column(
    out: &mut [u8],
    at: usize,
    r: Recording,
    pool: &mut [u64],
    words: &mut [u64],
    e: Entry,
    o: Own,
) -> usize
    requires { Tables r.source.now r.fragments.now r.nf × EntryReady r.image.now r.source.now r.n r.fragments.now r.nf e
        × Ordered at (entry_blocks r.image.now r.size r.source.now r.n r.fragments.now r.nf e) (length out.old)
        × Kept r.image.now r.source.now r.n r.fragments.now r.nf pool.old words.old × OwnOf r.source.now r.n r.nf e.parent o }
    ensures { Kept r.entry.image.now r.entry.source.now r.entry.n r.entry.fragments.now r.entry.nf pool.new words.new
        × Wrote at (entry_blocks r.entry.image.now r.entry.size r.entry.source.now r.entry.n r.entry.fragments.now r.entry.nf e) result
        out.old out.new }
{
    let w = width_of(r.image, e.group, e.channel);
    let count = block_count(r.size, w, e.records);
    if count == 0 {
        return at;
    }
    let first = e.first as usize;
    let past = first + (24 * count + w * e.records) as usize;
    gap(out, at, first);
    put_blocks(&mut out[first..], r, pool, words, e, o);
    past
}

// Zeros from at up to sd, and an SD there with the data of fragments; the answer is past it.
fn write_sd(out: &mut [u8], at: usize, sd: usize, image: &[u8], fragments: &[u64]) -> usize
    requires { (at ≤ sd) × (sd + length (block_of kind_sd (joined image.now (fragments_of fragments.now))) ≤ length out.old) }
    ensures { Wrote at (block sd (block_of kind_sd (joined image.now (fragments_of fragments.now))) ∷ []) result
        out.old out.new }
{
    let size = joined_size(image, fragments);
    gap(out, at, sd);
    write_signal(&mut out[sd..], image, fragments);
    sd + (24 + size) as usize
}

// The SD of a column with signal data.
fn write_signal_of(out: &mut [u8], at: usize, image: &[u8], fragments: &[u64], e: Entry) -> usize
    requires { ((e.signal ≢ 0) → 3 * (e.signal - 1) + 3 * e.pieces ≤ length fragments.now)
        × Ordered at (entry_signal image.now fragments.now e) (length out.old) }
    ensures { Wrote at (entry_signal image.now fragments.now e) result out.old out.new }
{
    if e.signal == 0 {
        return at;
    }
    let a = (3 * (e.signal - 1)) as usize;
    let b = a + (3 * e.pieces) as usize;
    write_sd(out, at, e.sd as usize, image, &fragments[a..b])
}

// Of so many columns, from at on, one after the other; the answer is past them. words are free for places of records.
pub(crate) fn write_data(
    out: &mut [u8],
    at: usize,
    r: Recording,
    columns: &[u64],
    memo: &[u64],
    number: u64,
    words: &mut [u64],
) -> usize
    requires { DataReady r.image.now r.size r.source.now r.n r.fragments.now r.nf columns.now memo.now number at (length out.old) }
    ensures { Wrote at (data_from r.entry.image.now r.entry.size r.entry.source.now r.entry.n r.entry.fragments.now r.entry.nf columns.now
        memo.now 0 number) result out.old out.new }
{
    let mut pool = [0u64; 4096];
    forget(words);
    let mut known = known_first(r.source, r.n, r.nf);
    let mut p = at;
    for k in 0..number {
        let e = entry_at(columns, memo, k);
        known = known_of(r.source, r.n, r.nf, known, e.parent);
        p = write_column(out, p, r, &mut pool, words, e, known.own);
        p = write_signal_of(out, p, r.image, r.fragments, e);
    }
    p
}
