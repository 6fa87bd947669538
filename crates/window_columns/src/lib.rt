// The data blocks and signal data of columns over a window of the file.
#![tactic(auto)]

ghost use Rattle.std.specs.Prelude.{◌≡◌, true, ◌+◌, ◌-◌, ◌≤◌, length};
ghost use Rattle.writing.specs.Own.{OwnOf};
ghost use Rattle.writing.specs.Data.{Tables};
ghost use Rattle.window_columns.specs.Columns.{SizeOf, LaysOwn, LaysEntry, LaysSD, LaysData, HasBlocks, Begun};

use channels::{block_count, width_of};
use data_blocks::column::Column;
use window_blocks::apart;
use window_data::column::lay_blocks;
use window_data::signal::lay_signal;
use writing::data::{Entry, entry_of};
use writing::own::{Own, own_of};

// What was read of the recording: its image, the bytes that a data block may have, the words of its blocks, so many, and the fragments of its records.
#[derive(Clone, Copy)]
struct Recording<'a> {
    image: &'a [u8],
    size: u64,
    source: &'a [u64],
    n: u64,
    fragments: &'a [u64],
    nf: u64,
    ghost tables: { Tables source.now fragments.now nf },
}

// The columns' words and those of their places, of so many columns.
#[derive(Clone, Copy)]
struct Columns<'a> {
    columns: &'a [u64],
    memo: &'a [u64],
    number: u64,
    ghost few: { number ≤ 512 },
    ghost long: { 4096 ≤ length columns.now },
    ghost placed: { 8192 ≤ length memo.now },
}

// The data blocks of column e, over a window that begins at index a of them; o is what is held of its DG.
fn lay_own(
    w: &mut [u8],
    a: u64,
    r: &Recording<'_>,
    pool: &mut [u64],
    words: &mut [u64],
    e: Entry,
    o: Own,
)
    requires { OwnOf r.now.source.now r.now.n r.now.nf e.parent o }
    ensures { LaysOwn r.now.image.now r.now.size r.now.source.now r.now.n r.now.fragments.now r.now.nf e a
        pool.old pool.new words.old words.new w.old w.new }
{
    let p = (3 * o.begin) as usize;
    let q = (3 * o.end) as usize;
    let f = (3072 + o.first) as usize;
    let l = f + o.groups as usize;
    let g = f + 512;
    let h = l + 512;
    lay_blocks(
        w,
        a,
        r.image,
        r.size,
        &r.source[f..l],
        &r.source[g..h],
        &r.fragments[p..q],
        pool,
        words,
        Column {
            parent: e.parent,
            group: e.group,
            channel: e.channel,
            records: e.records,
        },
    );
}

// How many bytes blocks have, so many of them with x bytes of each of n records, if that is a number.
fn size_of(count: u64, x: u64, n: u64) -> Option<u64>
    ensures { SizeOf count x n result }
{
    count.checked_mul(24)?.checked_add(x.checked_mul(n)?)
}

// The data blocks of column e.
fn lay_entry(w: &mut [u8], a: u64, r: &Recording<'_>, pool: &mut [u64], words: &mut [u64], e: Entry)
    ensures { LaysEntry r.now.image.now r.now.size r.now.source.now r.now.n r.now.fragments.now r.now.nf e a
        pool.old pool.new words.old words.new w.old w.new }
{
    let x = width_of(r.image, e.group, e.channel);
    let count = block_count(r.size, x, e.records);
    if count == 0 {
        return;
    }
    let Some(bytes) = size_of(count, x, e.records) else {
        return;
    };
    if apart(w.len(), a, e.first, bytes) {
        return;
    }
    let o = own_of(r.source, r.n, r.nf, e.parent);
    if e.first <= a {
        lay_own(w, a - e.first, r, pool, words, e, o);
        return;
    }
    let skip = (e.first - a) as usize;
    if w.len() <= skip {
        return;
    }
    lay_own(&mut w[skip..], 0, r, pool, words, e, o);
}

// The SD of column e, if it has signal data.
fn lay_sd(w: &mut [u8], a: u64, image: &[u8], fragments: &[u64], e: Entry)
    ensures { LaysSD image.now fragments.now e a w.old w.new }
{
    if e.signal == 0 {
        return;
    }
    let all = fragments.len() as u64 / 3;
    let before = e.signal - 1;
    if all < before || all - before < e.pieces {
        return;
    }
    let p = (3 * before) as usize;
    let q = p + (3 * e.pieces) as usize;
    lay_signal(w, a, e.sd, image, &fragments[p..q]);
}

// Whether column e has data blocks.
fn has_blocks(image: &[u8], size: u64, e: Entry) -> bool
    ensures { result ≡ true → HasBlocks image.now size e }
{
    block_count(size, width_of(image, e.group, e.channel), e.records) != 0
}

// Whether it has data blocks and they begin by index a.
fn begun(a: u64, image: &[u8], size: u64, e: Entry) -> bool
    ensures { result ≡ true → (e.first ≤ a) × HasBlocks image.now size e }
{
    e.first <= a && has_blocks(image, size, e)
}

// Whether it has data blocks and they begin past a window of so many bytes from a on.
fn past(room: usize, a: u64, image: &[u8], size: u64, e: Entry) -> bool
    ensures { result ≡ true → (a + room ≤ e.first) × HasBlocks image.now size e }
{
    a <= e.first && room as u64 <= e.first - a && has_blocks(image, size, e)
}

impl Columns<'_> {
    // The last column whose first data block's place is at most a, of columns whose places ascend; 0 where there is none.
    fn near(&self, a: u64) -> u64
        ensures { result ≤ self.now.number - 1 }
    {
        let mut low = 0;
        let mut high = self.number;
        while low + 1 < high {
            let mid = (low + high) / 2;
            if self.memo[(6657 + 3 * mid) as usize] <= a {
                low = mid;
            } else {
                high = mid;
            }
        }
        low
    }

    // The last column whose data blocks begin by index a, 0 where there is none: what is before it ends by a.
    fn first_needed(&self, a: u64, image: &[u8], size: u64) -> u64
        ensures { Begun image.now size self.now.columns.now self.now.memo.now self.now.number a result }
    {
        let mut k = self.near(a);
        while 0 < k {
            let e = entry_of(self.columns, self.memo, k);
            if begun(a, image, size, e) {
                return k;
            }
            k -= 1;
        }
        0
    }
}

// The data of these columns: of those that may have a byte in the window.
fn lay_columns(
    w: &mut [u8],
    a: u64,
    r: &Recording<'_>,
    c: &Columns<'_>,
    pool: &mut [u64],
    words: &mut [u64],
)
    ensures { LaysData r.now.image.now r.now.size r.now.source.now r.now.n r.now.fragments.now r.now.nf
        c.now.columns.now c.now.memo.now c.now.number a
        pool.old pool.new words.old words.new w.old w.new }
{
    for k in c.first_needed(a, r.image, r.size)..c.number {
        let e = entry_of(c.columns, c.memo, k);
        if past(w.len(), a, r.image, r.size, e) {
            return;
        }
        lay_entry(w, a, r, pool, words, e);
        lay_sd(w, a, r.image, r.fragments, e);
    }
}

// The same of any words, where there are as many as it takes.
pub fn lay_data(
    w: &mut [u8],
    a: u64,
    image: &[u8],
    size: u64,
    source: &[u64],
    n: u64,
    fragments: &[u64],
    nf: u64,
    columns: &[u64],
    memo: &[u64],
    number: u64,
    pool: &mut [u64],
    words: &mut [u64],
)
    ensures { number ≤ 512 → 4096 ≤ length columns.now → 8192 ≤ length memo.now
        → LaysData image.now size source.now n fragments.now nf columns.now memo.now number a
        pool.old pool.new words.old words.new w.old w.new }
{
    if 512 < number || source.len() < 8192 || columns.len() < 4096 || memo.len() < 8192 {
        return;
    }
    if fragments.len() as u64 / 3 < nf {
        return;
    }
    let r = Recording {
        image,
        size,
        source,
        n,
        fragments,
        nf,
    };
    let c = Columns {
        columns,
        memo,
        number,
    };
    lay_columns(w, a, &r, &c, pool, words);
}
