// The stretches of all groups of a DG, found in one framing of its data and kept in lent words.
ghost use Rattle.std.specs.Prelude.{true, ◌≡◌, ◌+◌, ◌≤◌, ◌<◌, length, get_or, set, IfSome};
ghost use Rattle.base.specs.Blit.{blit};
ghost use Rattle.places.specs.Pool.{entry_at, KeepsRight};
ghost use Rattle.places.specs.PoolLaws.{entry_words};
ghost use Rattle.places.specs.Pass.{KeepsAll, KeepsRecord, EndsAt, TakesRecord, Passes};

use crate::frame::next_record;
use crate::pool::{entry_in, kept_in};
use crate::several::longer;
use crate::stretch::{Scan, Stretch};
use records::fragment::word_at;
use records::group::id_size;
use records::table::make_tables;

// The words of number i: a stretch of the group at g of the DG at d.
fn put_entry(pool: &mut [u64], i: u64, d: u64, g: u64, t: Stretch)
    requires { entry_at i + 6 ≤ length pool.old }
    ensures { pool.new ≡ blit (entry_at i) (entry_words d g t) pool.old }
{
    let at = (8 + 6 * i) as usize;
    pool[at..at + 6].copy_from_slice(&[d, g, t.number, t.first, t.stride, t.count]);
}

// Number i, if it is of the group at g of the DG at d, has records and ends before record r.
fn ending(pool: &[u64], i: u64, d: u64, g: u64, r: u64) -> Option<Stretch>
    requires { entry_at (i + 1) ≤ length pool.now }
    ensures { IfSome result (EndsAt pool.now i d g r) }
{
    let stretch = entry_in(pool, i, d, g)?;
    if stretch.count == 0 {
        return None;
    }
    if r < stretch.number {
        return None;
    }
    if r - stretch.number != stretch.count {
        return None;
    }
    Some(stretch)
}

// Number i made longer by record r, which lies at p, if it can be.
fn extend(pool: &mut [u64], i: u64, d: u64, g: u64, r: u64, p: u64) -> bool
    ensures { KeepsRecord d g r p pool.old pool.new }
{
    if kept_in::<6>(pool) <= i {
        return false;
    }
    let Some(stretch) = ending(pool, i, d, g, r) else {
        return false;
    };
    let Some(more) = longer(stretch, p) else {
        return false;
    };
    put_entry(pool, i, d, g, more);
    true
}

// One more, of record r alone, if there is room: its number.
fn begin(pool: &mut [u64], d: u64, g: u64, r: u64, p: u64) -> Option<u64>
    ensures { KeepsRecord d g r p pool.old pool.new }
{
    if pool.len() < 3584 {
        return None;
    }
    let i = pool[0];
    if 595 < i {
        return None;
    }
    let t = Stretch {
        number: r,
        first: p,
        stride: 0,
        count: 1,
    };
    put_entry(pool, i, d, g, t);
    pool[0] = i + 1;
    Some(i)
}

// Record r kept, in number i or in a new one, if there is room: in which.
fn keep(pool: &mut [u64], i: u64, d: u64, g: u64, r: u64, p: u64) -> Option<u64>
    ensures { KeepsRecord d g r p pool.old pool.new }
{
    if extend(pool, i, d, g, r, p) {
        return Some(i);
    }
    begin(pool, d, g, r, p)
}

// The next record of group j lies at p: it is counted, and kept if its group is no VLSD storage. Whether there was room; latest has
// the number of each group's last stretch.
fn take(
    pool: &mut [u64],
    latest: &mut [u64; 512],
    counts: &mut [u64; 512],
    sizes: &[u64; 512],
    d: u64,
    groups: &[u64],
    j: u64,
    p: u64,
) -> bool
    ensures { TakesRecord d groups.now sizes.now j p counts.old pool.old pool.new
        × (result ≡ true → counts.new ≡ set counts.old j (get_or counts.old j 0 + 1)) }
{
    if 511 < j {
        return false;
    }
    let m = j as usize;
    let r = counts[m];
    if 18446744073709551614 < r {
        return false;
    }
    counts[m] = r + 1;
    if sizes[m] == 0 {
        return true;
    }
    let g = word_at(groups, j);
    let Some(i) = keep(pool, latest[m], d, g, r, p) else {
        return false;
    };
    latest[m] = i;
    true
}

// All records of the DG, one after the other; ids have n bytes. Whether there was room.
fn pass(
    pool: &mut [u64],
    image: &[u8],
    d: u64,
    n: u64,
    groups: &[u64],
    fragments: &[u64],
    ids: &[u64; 512],
    sizes: &[u64; 512],
    hints: &mut [u64; 1536],
) -> bool
    ensures { Passes image.now d n groups.now fragments.now ids.now sizes.now
        pool.old pool.new }
{
    let mut latest = [0u64; 512];
    let mut counts = [0u64; 512];
    let mut c = Scan {
        at: 0,
        position: 0,
        left: 0,
        offset: 0,
        number: 0,
    };
    let mut last: u64 = 0;
    'records: loop {
        let next = next_record(image, n, groups, fragments, ids, sizes, hints, last, c);
        let Some(r) = next else {
            return true;
        };
        let kept = take(
            pool,
            &mut latest,
            &mut counts,
            sizes,
            d,
            groups,
            r.group,
            r.place,
        );
        if !kept {
            return false;
        }
        c = r.past;
        last = r.group;
    }
}

// The words from 3,584 on tell which DG were tried: the first free one, or none where d is there already or all are taken.
fn slot_for(pool: &[u64], d: u64) -> Option<usize>
    requires { 4096 ≤ length pool.now }
    ensures { IfSome result (λ i. (3584 ≤ i) × (i < 4096)) }
{
    for i in 3584..4096 {
        if pool[i] == d {
            return None;
        }
        if pool[i] == 0 {
            return Some(i);
        }
    }
    None
}

// Whether the DG at d was not tried before; from now on it was.
fn try_new(pool: &mut [u64], d: u64) -> bool
    ensures { KeepsAll pool.old pool.new }
{
    if pool.len() < 4096 {
        return false;
    }
    if 596 < pool[0] {
        return false;
    }
    let Some(i) = slot_for(pool, d) else {
        return false;
    };
    pool[i] = d;
    true
}

// No more kept than there were.
fn set_back(pool: &mut [u64], n: u64)
    ensures { KeepsAll pool.old pool.new }
{
    if pool.len() == 0 {
        return;
    }
    pool[0] = pool[0].min(n);
}

// The stretches of all groups of the DG at d, if they have room and were not sought before.
pub fn fill(pool: &mut [u64], image: &[u8], d: u64, groups: &[u64], fragments: &[u64])
    ensures { KeepsRight image.now d groups.now fragments.now pool.old pool.new }
{
    if groups.len() < 2 {
        return;
    }
    let kept = word_at(pool, 0);
    if !try_new(pool, d) {
        return;
    }
    let n = id_size(image, d);
    let mut ids = [0u64; 512];
    let mut sizes = [0u64; 512];
    let mut hints = [0u64; 1536];
    make_tables(image, groups, &mut ids, &mut sizes, &mut hints);
    let room = pass(
        pool, image, d, n, groups, fragments, &ids, &sizes, &mut hints,
    );
    if room {
        return;
    }
    set_back(pool, kept);
}
