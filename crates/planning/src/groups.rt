// Groups as reading kept them: addresses and marks of what was met, counts of the groups. A word for each in file order is the CG of the
// group whose master stands for its own, 0 for none.
ghost use Rattle.std.specs.Prelude.{◌≡◌, ◌≤◌, length};
ghost use Rattle.index.specs.Index.{Indexed};
ghost use Rattle.plan.specs.Columns.{stand_in};
ghost use Rattle.result.specs.Result.{shared_groups};
ghost use Rattle.planning.specs.Items.{groups_in, FoundGroup};
ghost use Rattle.planning.specs.Noted.{Noted, FirstAt};

use crate::words::{put, word};
use index::enter;

// What reading kept and what is noted of it: the words of the blocks met, two words for each, their index and their number. The words of the groups:
// none where no master stands for another.
#[derive(Clone, Copy)]
pub(crate) struct Notes<'a> {
    pub source: &'a [u64],
    pub before: &'a [u64],
    pub index: &'a [u16; 4096],
    pub items: u64,
    pub stands: &'a [u64],
    ghost few: { items ≤ 1536 },
    ghost noted: { Noted source.now items before.now index.now },
}

// A group: the number of the item past its CG, that CG, its DG and its records.
#[derive(Clone, Copy)]
pub(crate) struct Group {
    pub item: u64,
    pub at: u64,
    pub dg: u64,
    pub records: u64,
}

// A group found: the number of the item past its CG, its records, the address of its DG, its own number.
#[derive(Clone, Copy)]
pub struct Sought {
    pub item: u64,
    pub records: u64,
    pub dg: u64,
    pub number: u64,
}

// Of each of n items the number of groups before it and the address of its DG, two words, and the index of all.
pub(crate) fn note_items(source: &[u64], before: &mut [u64], index: &mut [u16; 4096], n: u64)
    requires { (n ≤ 1536) × (3072 ≤ length before.old) × Indexed 1 source.now 0 index.old }
    ensures { Noted source.now n before.new index.new }
{
    let mut g: u64 = 0;
    let mut d: u64 = 0;
    for i in 0..n {
        let mark = word(source, 1536 + i);
        let at = word(source, i);
        enter(index, i, at);
        put(before, 2 * i, g);
        put(before, 2 * i + 1, d);
        if mark == 1 {
            g += 1;
        } else if mark != 0 {
            d = at;
        }
    }
}

// The number of the item past the first group with its CG at a, among n items, 0 for none. The chain of a leads from the last of its items to the first.
fn first_at(source: &[u64], index: &[u16; 4096], n: u64, a: u64) -> u64
    requires { (n ≤ 1536) × Indexed 1 source.now n index.now }
    ensures { FirstAt source.now n a result }
{
    let mut i = u64::from(index[2048 + (a % 2039) as usize]);
    let mut found: u64 = 0;
    while 0 < i {
        let k = i - 1;
        i = u64::from(index[k as usize]);
        if word(source, 1536 + k) == 1 {
            if word(source, k) == a {
                found = k + 1;
            }
        }
    }
    found
}

// That group, by what is noted of the items.
pub(crate) fn find_group(notes: Notes, a: u64) -> Option<Sought>
    ensures { FoundGroup notes.entry.source.now notes.entry.items a result }
{
    let item = first_at(notes.source, notes.index, notes.items, a);
    if item == 0 {
        return None;
    }
    let k = item - 1;
    let number = word(notes.before, 2 * k);
    let records = word(notes.source, 3584 + number);
    let dg = word(notes.before, 2 * k + 1);
    Some(Sought {
        item,
        records,
        dg,
        number,
    })
}

// The word of the group at a; without words nothing is sought.
pub(crate) fn stand_of(notes: Notes, a: u64) -> u64
    ensures { result ≡ stand_in a (groups_in notes.entry.source.now notes.entry.items) notes.entry.stands.now }
{
    if notes.stands.is_empty() {
        return 0;
    }
    match find_group(notes, a) {
        None => 0,
        Some(found) => word(notes.stands, found.number),
    }
}

// How many groups another stands for.
pub(crate) fn shared_groups(stands: &[u64]) -> u64
    ensures { result ≡ shared_groups stands.now }
{
    let mut shared: u64 = 0;
    for by in stands {
        if *by != 0 {
            shared += 1;
        }
    }
    shared
}
