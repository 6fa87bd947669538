// The records of a column's group, by words that tell their offsets in the joined data, one each.
ghost use Rattle.std.specs.Prelude.{◌≡◌, ◌+◌, ◌≤◌, length};
ghost use Rattle.mdf.specs.Records.{size_of};
ghost use Rattle.work_words.specs.Words.{fragments_of};
ghost use Rattle.cells.specs.Spot.{Readable};
ghost use Rattle.data_blocks.specs.Region.{Formed};
ghost use Rattle.data_blocks.specs.Listed.{ListFilled};

use crate::piece::{Form, begin_block};
use cells::gathered::put_gathered;
use joined::spot::begin;

// From number a up to n, block by block; word number first is of the first record. Up to which number they were put: where a record does not lie
// in the data, no further.
fn listed(
    out: &mut [u8],
    image: &[u8],
    fragments: &[u64],
    words: &[u64],
    first: u64,
    n: u64,
    f: Form,
    size: u64,
    a: u64,
) -> u64
    requires { Readable image.now fragments.now f.shape × Formed image.now f (length out.old)
        × (size ≡ size_of (fragments_of fragments.now)) × (first + n ≤ length words.now) × (a ≤ n) × (n ≤ f.records) }
    ensures { (a ≤ result) × (result ≤ n)
        × ListFilled image.now fragments.now f words.now first n a result out.old out.new }
{
    let h = f.shape;
    let mut k = begin();
    let mut at = a;
    while at < n {
        let body = begin_block(out, f, at);
        let c = (f.per - at % f.per).min(n - at);
        let from = (first + at) as usize;
        let r = put_gathered(out, body, image, fragments, h, size, words, from, c, k);
        if r.count < c {
            return at + r.count;
        }
        k = r.spot;
        at += r.count;
    }
    at
}

// From number a on, as far as count words, from word number first on, tell of records that the column has. Up to which number they were put.
pub(crate) fn by_offsets(
    out: &mut [u8],
    image: &[u8],
    fragments: &[u64],
    words: &[u64],
    first: u64,
    count: u64,
    f: Form,
    size: u64,
    a: u64,
) -> u64
    requires { Readable image.now fragments.now f.shape × Formed image.now f (length out.old)
        × (size ≡ size_of (fragments_of fragments.now)) × (a ≤ f.records) }
    ensures { (a ≤ result) × (result ≤ f.records)
        × ListFilled image.now fragments.now f words.now first count a result out.old out.new }
{
    let all = words.len() as u64;
    let n = count.min(f.records);
    if all < count || all - count < first || n < a {
        return a;
    }
    listed(out, image, fragments, words, first, n, f, size, a)
}
