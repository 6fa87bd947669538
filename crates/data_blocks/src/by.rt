// The records of a column's group, stretch by stretch.
ghost use Rattle.std.specs.Prelude.{[], ◌∷◌, ◌≡◌, ◌+◌, ◌*◌, ◌≤◌, ◌<◌, length};
ghost use Rattle.mdf.specs.Records.{size_of};
ghost use Rattle.work_words.specs.Words.{fragments_of};
ghost use Rattle.joined.specs.Spot.{SpotOf};
ghost use Rattle.cells.specs.Spot.{Readable};
ghost use Rattle.data_blocks.specs.Region.{Formed, PieceIn};
ghost use Rattle.data_blocks.specs.Filled.{IfUsable, past_of, PutRest, Filled, PoolFilled};

use crate::piece::{Form, put_piece};
use cells::run::product_within;
use joined::spot::{Spot, begin};
use places::pool::find;
use places::several::several_next;
use places::sorted::sorted_next;
use places::stretch::{Scan, Stretch};
use records::group::id_size;
use records::table::make_tables;

// The place before all records of a group.
pub const START: Scan = Scan {
    at: 0,
    position: 0,
    left: 0,
    offset: 0,
    number: 0,
};

// Whether a stretch is of records from number at on that the column has, in data of so many bytes.
pub fn usable(t: Stretch, at: u64, f: Form, size: u64) -> bool
    ensures { IfUsable size f at t result }
{
    let length = f.shape.length;
    t.number == at
        && t.count != 0
        && at <= f.records
        && t.count <= f.records - at
        && length <= size
        && t.first <= size - length
        && product_within(t.count - 1, t.stride, size - length - t.first)
}

// The records of a stretch past the first m.
fn past(t: Stretch, m: u64) -> Stretch
    requires { (m ≤ t.count) × (t.number + m < 18446744073709551616) × (t.first + m * t.stride < 18446744073709551616) }
    ensures { result ≡ past_of t m }
{
    Stretch {
        number: t.number + m,
        first: t.first + m * t.stride,
        stride: t.stride,
        count: t.count - m,
    }
}

// The records of a stretch from number a on.
fn put_rest(
    out: &mut [u8],
    image: &[u8],
    fragments: &[u64],
    f: Form,
    a: u64,
    t: Stretch,
    spot: Spot,
) -> Spot
    requires { Readable image.now fragments.now f.shape × Formed image.now f (length out.old)
        × SpotOf image.now fragments.now spot × PieceIn fragments.now f t }
    ensures { SpotOf image.now fragments.now result
        × PutRest image.now fragments.now f a t out.old out.new }
{
    if t.number + t.count <= a {
        return spot;
    }
    if a <= t.number {
        return put_piece(out, image, fragments, f, t, spot);
    }
    put_piece(out, image, fragments, f, past(t, a - t.number), spot)
}

// Of the group at g that is alone in the DG at d.
pub(crate) fn by_sorted(
    out: &mut [u8],
    image: &[u8],
    d: u64,
    g: u64,
    fragments: &[u64],
    f: Form,
    size: u64,
)
    requires { Readable image.now fragments.now f.shape × Formed image.now f (length out.old)
        × (size ≡ size_of (fragments_of fragments.now)) }
    ensures { Filled image.now d 0 (g ∷ []) fragments.now f 0 f.records out.old out.new }
{
    let mut scan = START;
    let mut spot = begin();
    let mut at = 0;
    while at < f.records {
        let r = sorted_next(image, d, g, fragments, scan);
        if !usable(r.stretch, at, f, size) {
            return;
        }
        spot = put_rest(out, image, fragments, f, 0, r.stretch, spot);
        at += r.stretch.count;
        scan = r.scan;
    }
}

// Of the group at g of the DG at d, as far as kept stretches follow each other from the first record on: how many records.
pub(crate) fn by_pool(
    out: &mut [u8],
    image: &[u8],
    d: u64,
    g: u64,
    fragments: &[u64],
    pool: &[u64],
    f: Form,
    size: u64,
) -> u64
    requires { Readable image.now fragments.now f.shape × Formed image.now f (length out.old)
        × (size ≡ size_of (fragments_of fragments.now)) }
    ensures { (result ≤ f.records)
        × PoolFilled image.now d g fragments.now f pool.now result out.old out.new }
{
    let mut spot = begin();
    let mut at = 0;
    let mut index = 0;
    while at < f.records {
        let e = find(pool, d, g, at, index);
        if !usable(e.stretch, at, f, size) {
            return at;
        }
        spot = put_rest(out, image, fragments, f, 0, e.stretch, spot);
        at += e.stretch.count;
        index = e.index;
    }
    at
}

// Of group k of several, from number a on, by framing.
pub(crate) fn by_several(
    out: &mut [u8],
    image: &[u8],
    d: u64,
    groups: &[u64],
    k: u64,
    fragments: &[u64],
    f: Form,
    size: u64,
    a: u64,
)
    requires { Readable image.now fragments.now f.shape × Formed image.now f (length out.old)
        × (size ≡ size_of (fragments_of fragments.now)) × (a ≤ f.records) × (length groups.now ≡ 1 → ⊥) }
    ensures { Filled image.now d k groups.now fragments.now f a f.records out.old
        out.new }
{
    let mut ids = [0u64; 512];
    let mut sizes = [0u64; 512];
    let mut hints = [0u64; 1536];
    make_tables(image, groups, &mut ids, &mut sizes, &mut hints);
    let n = id_size(image, d);
    let mut scan = START;
    let mut spot = begin();
    let mut at = 0;
    while at < f.records {
        let r = several_next(
            image, n, groups, k, fragments, &ids, &sizes, &mut hints, scan,
        );
        if !usable(r.stretch, at, f, size) {
            return;
        }
        spot = put_rest(out, image, fragments, f, a, r.stretch, spot);
        at += r.stretch.count;
        scan = r.scan;
    }
}
