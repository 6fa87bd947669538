// What a call chooses (document 02), and the refusal of what can't be chosen.
#![tactic(auto)]

ghost use Rattle.std.specs.Prelude.{◌≡◌, ◌+◌, ◌<◌};
ghost use Rattle.fields.specs.Answer.{verdict_of};
ghost use Rattle.plan.specs.Table.{entry_of, is_sized, is_allowed, is_entry, are_entries, table_in, treatment};
ghost use Rattle.plan.specs.Rules.{units, is_among, choices_in};
ghost use Rattle.choices.specs.Chosen.{rules};

use fields::field_at;
use fields::refusal::Refusal;

// The unit on whose multiples columns start; whether equal time columns are shared; whether references to attachments are kept.
#[derive(Clone, Copy)]
pub struct Choices {
    pub unit: u64,
    pub share: bool,
    pub photos: bool,
}

// A power of two from 8 to 4096.
pub fn is_unit(u: u64) -> bool
    ensures { result ≡ is_among u units }
{
    [8, 16, 32, 64, 128, 256, 512, 1024, 2048, 4096].contains(&u)
}

// The first of n entries of a table from entry k on that lists type t, k + n where none does.
fn entry_of(table: &[u8], t: u64, k: u64, n: u64) -> u64
    requires { k + n < 256 }
    ensures { result ≡ entry_of table.now t k n }
{
    for i in k..k + n {
        if field_at::<1>(table, 1 + i) == t {
            return i;
        }
    }
    k + n
}

// How a table treats type t: 0 keep, 2 store as type 0, any other omit for that reason. A number, as a table that was not
// checked may hold any byte.
pub fn treatment_of(table: &[u8], t: u64) -> u64
    ensures { result ≡ treatment table.now t }
{
    let n = field_at::<1>(table, 0);
    let k = entry_of(table, t, 0, n);
    if k < n {
        let v = field_at::<1>(table, 1 + n + k);
        if v == 1 {
            return 8;
        }
        return v;
    }
    match t {
        4 => 4,
        5 => 2,
        _ => 0,
    }
}

// No bytes, or a count from 1 to 7 and that many types and treatments.
fn is_sized(table: &[u8]) -> bool
    ensures { result ≡ is_sized table.now }
{
    let size = table.len() as u64;
    if size == 0 {
        return true;
    }
    let n = field_at::<1>(table, 0);
    if n == 0 {
        return false;
    }
    if 7 < n {
        return false;
    }
    size == 1 + 2 * n
}

// Type t may have treatment v.
fn is_allowed(t: u64, v: u64) -> bool
    ensures { result ≡ is_allowed t v }
{
    match t {
        2 => v == 0,
        3 => v == 0,
        5 => v != 0,
        6 => v != 2,
        _ => true,
    }
}

// Entry k may stand in a table with n entries behind it.
fn is_entry(table: &[u8], k: u64, n: u64) -> bool
    requires { k + 1 + n < 256 }
    ensures { result ≡ is_entry table.now k n }
{
    let t = field_at::<1>(table, 1 + k);
    let end = k + 1 + n;
    let again = entry_of(table, t, k + 1, n);
    if again < end {
        return false;
    }
    if 6 < t {
        return false;
    }
    let v = field_at::<1>(table, 1 + field_at::<1>(table, 0) + k);
    if 2 < v {
        return false;
    }
    is_allowed(t, v)
}

// All of n entries may stand in a table.
fn are_entries(table: &[u8], n: u64) -> bool
    requires { n < 256 }
    ensures { result ≡ are_entries table.now 0 n }
{
    for k in 0..n {
        if !is_entry(table, k, n - k - 1) {
            return false;
        }
    }
    true
}

// 27.
fn table_in(table: &[u8]) -> Result<(), Refusal>
    ensures { verdict_of result ≡ table_in table.now }
{
    if is_sized(table) {
        if are_entries(table, field_at::<1>(table, 0)) {
            return Ok(());
        }
    }
    Err(Refusal::Types)
}

// 26, then 27.
pub fn choices_in(c: Choices, table: &[u8]) -> Result<(), Refusal>
    ensures { verdict_of result ≡ choices_in (rules c table.now) }
{
    if is_unit(c.unit) {
        return table_in(table);
    }
    Err(Refusal::Unit)
}
