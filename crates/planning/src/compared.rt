// What planning starts with when clocks are shared: the units of all masters, then the data of compared groups.
ghost use Rattle.std.specs.Prelude.{◌≡◌, ◌≤◌, eqb};
ghost use Rattle.base.specs.Choice.{pick};
ghost use Rattle.fields.specs.Answer.{verdict_of};
ghost use Rattle.plan.specs.Channel.{both};
ghost use Rattle.planning.specs.Table.{entries_at};
ghost use Rattle.planning.specs.Compared.{each_over, unit_over, shares_key, compared_over, any_over, stream_over};

use crate::table::{Entry, entry_of, words_from};
use fields::refusal::Refusal;
use sharing::key::key_same;
use sharing::stream::stream_in;
use sharing::text::unit_in;

// The unit of a group's master, if it has one.
fn unit_of(image: &[u8], e: Entry) -> Result<(), Refusal>
    ensures { verdict_of result ≡ unit_over image.now e }
{
    if e.master == 0 {
        return Ok(());
    }
    unit_in(image, e.master)
}

// Those of n groups, in file order.
pub(crate) fn units_in(image: &[u8], table: &[u64], n: u64) -> Result<(), Refusal>
    requires { n ≤ 1536 }
    ensures { verdict_of result ≡ each_over (unit_over image.now) (entries_at table.now 0 n) }
{
    for j in 0..n {
        let e = entry_of(table, j);
        unit_of(image, e)?;
    }
    Ok(())
}

// The group f has a master, and the key of e's.
pub(crate) fn shares_key(image: &[u8], e: Entry, f: Entry) -> bool
    ensures { result ≡ shares_key image.now e f }
{
    f.master != 0 && key_same(image, e.at, e.master, e.records, f.at, f.master, f.records)
}

// The same as a number.
fn with_key(image: &[u8], e: Entry, f: Entry) -> u64
    ensures { (result ≡ pick (shares_key image.now e f) 1 0) × (result ≤ 1) }
{
    shares_key(image, e, f) as u64
}

// The group e, one of n, has a master, and another one's master has its key.
fn is_compared(image: &[u8], table: &[u64], n: u64, e: Entry) -> bool
    requires { n ≤ 1536 }
    ensures { result ≡ compared_over image.now (entries_at table.now 0 n) e }
{
    if e.master == 0 {
        return false;
    }
    let mut many: u64 = 0;
    for j in 0..n {
        let f = entry_of(table, j);
        many += with_key(image, e, f);
        if 1 < many {
            return true;
        }
    }
    false
}

// It is, and it is of the DG at d.
fn is_compared_in(image: &[u8], table: &[u64], n: u64, d: u64, e: Entry) -> bool
    requires { n ≤ 1536 }
    ensures { result ≡ both (eqb e.dg d) (compared_over image.now (entries_at table.now 0 n) e) }
{
    e.dg == d && is_compared(image, table, n, e)
}

// One of the n groups is.
fn any_compared(image: &[u8], table: &[u64], n: u64, d: u64) -> bool
    requires { n ≤ 1536 }
    ensures { result ≡ any_over image.now (entries_at table.now 0 n) d (entries_at table.now 0 n) }
{
    for j in 0..n {
        let e = entry_of(table, j);
        if is_compared_in(image, table, n, d, e) {
            return true;
        }
    }
    false
}

// The data of the group e, if it is alone in its DG and compared; of several groups it was read to count them.
fn stream_of(
    image: &[u8],
    fragments: &[u64],
    table: &[u64],
    n: u64,
    e: Entry,
) -> Result<(), Refusal>
    requires { n ≤ 1536 }
    ensures { verdict_of result ≡ stream_over image.now fragments.now (entries_at table.now 0 n) e }
{
    if e.count != 1 {
        return Ok(());
    }
    if any_compared(image, table, n, e.dg) {
        let own = words_from(fragments, e.fragments, e.words);
        return stream_in(image, e.dg, e.at, own);
    }
    Ok(())
}

// That of all n groups.
pub(crate) fn streams_in(
    image: &[u8],
    fragments: &[u64],
    table: &[u64],
    n: u64,
) -> Result<(), Refusal>
    requires { n ≤ 1536 }
    ensures { verdict_of result
        ≡ each_over (stream_over image.now fragments.now (entries_at table.now 0 n)) (entries_at table.now 0 n) }
{
    for j in 0..n {
        let e = entry_of(table, j);
        stream_of(image, fragments, table, n, e)?;
    }
    Ok(())
}
