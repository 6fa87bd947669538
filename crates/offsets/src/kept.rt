// Offsets of all records of groups of several DG, side by side in lent words.
ghost use Rattle.std.specs.Prelude.{◌+◌, ◌≤◌, length, IfSome};
ghost use Rattle.offsets.specs.Offsets.{entry_at, EntryFor, OffsetsFor, KeepsNone};

use places::pool::kept_in;

// Where the offsets of a group stand in the words, and how many they are.
#[derive(Clone, Copy)]
pub struct Offsets {
    pub known: bool,
    pub first: u64,
    pub count: u64,
}

// Entry i, if it is of the group at g of the DG at d and its offsets stand in the words.
fn entry_for(words: &[u64], i: u64, d: u64, g: u64) -> Option<Offsets>
    requires { entry_at (i + 1) ≤ length words.now }
    ensures { IfSome result (EntryFor words.now i d g) }
{
    let at = (8 + 4 * i) as usize;
    if words[at] != d {
        return None;
    }
    if words[at + 1] != g {
        return None;
    }
    let first = words[at + 2];
    let count = words[at + 3];
    let len = words.len() as u64;
    if len < first {
        return None;
    }
    if len - first < count {
        return None;
    }
    Some(Offsets {
        known: true,
        first,
        count,
    })
}

// Where the offsets of the group at g of the DG at d stand: known is false where it has no entry, and first and count are 0 then.
pub fn offsets_of(words: &[u64], d: u64, g: u64) -> Offsets
    ensures { OffsetsFor words.now d g result }
{
    for i in 0..kept_in::<4>(words) {
        if let Some(found) = entry_for(words, i, d, g) {
            return found;
        }
    }
    Offsets {
        known: false,
        first: 0,
        count: 0,
    }
}

// No entries: what was there is forgotten.
pub fn forget(words: &mut [u64])
    ensures { KeepsNone words.new }
{
    let n = words.len().min(2);
    words[..n].fill(0);
}
