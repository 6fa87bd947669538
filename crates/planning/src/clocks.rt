// One clock for many groups: which group's master stands for which.
ghost use Rattle.std.specs.Prelude.{◌≡◌, ◌≤◌, length};
ghost use Rattle.planning.specs.Clocks.{clock_of, SameTimes, StandsSame, FirstSame, StandsIn, AllStand, ShareTimes};

use crate::compared::{shares_key, streams_in, units_in};
use crate::table::{Entry, entry_of, fill_table, words_from};
use crate::words::{put, word};
use comparing::times::{Clock, times_same};
use fields::refusal::Refusal;

// The clock of the group with entry e and number j.
fn clock_of(e: Entry, j: u64) -> Clock
    requires { j ≤ 512 }
    ensures { result ≡ clock_of j e }
{
    Clock {
        dg: e.dg,
        number: (3072 + j).saturating_sub(e.groups),
        at: e.at,
        master: e.master,
        records: e.records,
    }
}

// The masters of the groups with entries e and f, and numbers j and i, have one key and the same bytes.
fn same_times(
    image: &[u8],
    source: &[u64],
    fragments: &[u64],
    e: Entry,
    j: u64,
    f: Entry,
    i: u64,
) -> bool
    requires { (j ≤ 512) × (i ≤ 512) }
    ensures { SameTimes image.now source.now fragments.now e j f i result }
{
    if shares_key(image, e, f) {
        let groups = words_from(source, e.groups, e.count);
        let own = words_from(fragments, e.fragments, e.words);
        let others = words_from(source, f.groups, f.count);
        let pieces = words_from(fragments, f.fragments, f.words);
        let a = clock_of(e, j);
        let b = clock_of(f, i);
        return times_same(image, a, groups, own, b, others, pieces);
    }
    false
}

// They do, and no other stands for the second.
fn stands_same(
    image: &[u8],
    source: &[u64],
    fragments: &[u64],
    e: Entry,
    j: u64,
    f: Entry,
    i: u64,
    stands: &[u64],
) -> bool
    requires { (j ≤ 512) × (i ≤ 512) }
    ensures { StandsSame image.now source.now fragments.now e j f i stands.now result }
{
    word(stands, i) == 0 && same_times(image, source, fragments, e, j, f, i)
}

// The CG of the first group before number j whose master equals that of the group with entry e, 0 for none.
fn first_same(
    image: &[u8],
    source: &[u64],
    fragments: &[u64],
    table: &[u64],
    stands: &[u64],
    j: u64,
    e: Entry,
) -> u64
    requires { j ≤ 512 }
    ensures { FirstSame image.now source.now fragments.now table.now stands.now j e result }
{
    for i in 0..j {
        let f = entry_of(table, i);
        if stands_same(image, source, fragments, e, j, f, i, stands) {
            return f.at;
        }
    }
    0
}

// The CG of the group that stands for group j, 0 for none.
fn stands_in(
    image: &[u8],
    source: &[u64],
    fragments: &[u64],
    table: &[u64],
    stands: &[u64],
    j: u64,
) -> u64
    requires { j ≤ 512 }
    ensures { StandsIn image.now source.now fragments.now table.now stands.now j result }
{
    let e = entry_of(table, j);
    if e.master == 0 {
        return 0;
    }
    first_same(image, source, fragments, table, stands, j, e)
}

// The same of n groups, a word each.
fn all_stand(
    image: &[u8],
    source: &[u64],
    fragments: &[u64],
    table: &[u64],
    n: u64,
    stands: &mut [u64],
)
    requires { (n ≤ 512) × (512 ≤ length stands.old) }
    ensures { AllStand image.now source.now fragments.now table.now n stands.old stands.new }
{
    for j in 0..n {
        let by = stands_in(image, source, fragments, table, stands, j);
        put(stands, j, by);
    }
}

// What planning starts with: the units of all masters, the data of compared groups, then for each group the CG of the one that stands for it, 0 for none.
pub(crate) fn share_times(
    image: &[u8],
    source: &[u64],
    fragments: &[u64],
    n: u64,
    nf: u64,
    stands: &mut [u64; 512],
) -> Result<(), Refusal>
    requires { (n ≤ 1536) × (nf ≤ 1024) × (3072 ≤ length fragments.now) }
    ensures { ShareTimes image.now source.now fragments.now n nf result stands.old stands.new }
{
    let mut table = [0u64; 4096];
    let met = fill_table(image, source, &mut table, n, nf);
    let groups = met.min(512);
    units_in(image, &table, groups)?;
    streams_in(image, fragments, &table, groups)?;
    all_stand(image, source, fragments, &table, groups, stands);
    Ok(())
}
