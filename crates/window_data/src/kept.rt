// The records of a column's group, at places that are kept, over a window.
ghost use Rattle.std.specs.Prelude.{◌≡◌, ◌≤◌};
ghost use Rattle.mdf.specs.Records.{most64, size_of};
ghost use Rattle.work_words.specs.Words.{fragments_of};
ghost use Rattle.cells.specs.Spot.{Readable};
ghost use Rattle.data_blocks.specs.Region.{Formed};
ghost use Rattle.window_data.specs.Kept.{PoolFilledIn, ListFilledIn};

use crate::piece::{is_past, lay_piece, start_of};
use crate::sorted::lay_rest;
use data_blocks::by::usable;
use data_blocks::piece::Form;
use places::pool::find;
use places::stretch::Stretch;

// Of the group at g of the DG at d, from number r on, as far as kept stretches follow each other: up to which number.
pub(crate) fn lay_pool(
    w: &mut [u8],
    a: u64,
    image: &[u8],
    d: u64,
    g: u64,
    fragments: &[u64],
    pool: &[u64],
    f: Form,
    size: u64,
    r: u64,
) -> u64
    requires { Readable image.now fragments.now f.shape × Formed image.now f most64 × (size ≡ size_of (fragments_of fragments.now))
        × (r ≤ f.records) }
    ensures { (r ≤ result) × (result ≤ f.records)
        × PoolFilledIn a image.now d g fragments.now f pool.now r result w.old w.new }
{
    let mut at = r;
    let mut index = 0;
    while at < f.records {
        if is_past(w.len() as u64, a, start_of(f, at)) {
            return f.records;
        }
        let e = find(pool, d, g, at, index);
        let t = e.stretch;
        if !usable(t, t.number, f, size) {
            return at;
        }
        let next = t.number + t.count;
        if at < t.number || next <= at {
            return at;
        }
        lay_rest(w, a, image, fragments, f, at, t);
        at = next;
        index = e.index;
    }
    at
}

// From number r on, as far as count words, from word number first on, tell of records that the column has: up to which number.
pub(crate) fn lay_offsets(
    w: &mut [u8],
    a: u64,
    image: &[u8],
    fragments: &[u64],
    words: &[u64],
    first: u64,
    count: u64,
    f: Form,
    size: u64,
    r: u64,
) -> u64
    requires { Readable image.now fragments.now f.shape × Formed image.now f most64 × (size ≡ size_of (fragments_of fragments.now))
        × (r ≤ f.records) }
    ensures { (r ≤ result) × (result ≤ f.records)
        × ListFilledIn a image.now fragments.now f words.now first count r result w.old w.new }
{
    let all = words.len() as u64;
    let n = count.min(f.records);
    if all < count || all - count < first || n <= r {
        return r;
    }
    for at in r..n {
        if is_past(w.len() as u64, a, start_of(f, at)) {
            return f.records;
        }
        let t = Stretch {
            number: at,
            first: words[(first + at) as usize],
            stride: 0,
            count: 1,
        };
        if !usable(t, at, f, size) {
            return at;
        }
        lay_piece(w, a, image, fragments, f, t);
    }
    n
}
