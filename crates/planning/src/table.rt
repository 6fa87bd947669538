// The groups in a table of eight words each: what their clocks are compared by.
ghost use Rattle.std.specs.Prelude.{◌≡◌, ◌-◌, ◌*◌, ◌≤◌, length};
ghost use Rattle.base.specs.Blit.{part, blit};
ghost use Rattle.planning.specs.Items.{items_from};
ghost use Rattle.planning.specs.Table.{entry_words, table_words, entry_at, owner_of, nobody, entry_in, entries};

use crate::span::{end_of, own_groups};
use crate::timing::own_of;
use crate::words::{put_column, word};

// A DG: its address; where its groups stand in the words of what was read, and how many they are; where its fragments stand in their words, and how many words.
#[derive(Clone, Copy)]
pub struct Owner {
    pub dg: u64,
    pub groups: u64,
    pub count: u64,
    pub fragments: u64,
    pub words: u64,
}

// A group: its CG, its master (0 for none), its records, and its DG.
#[derive(Clone, Copy)]
pub struct Entry {
    pub at: u64,
    pub master: u64,
    pub records: u64,
    pub dg: u64,
    pub groups: u64,
    pub count: u64,
    pub fragments: u64,
    pub words: u64,
}

// Entry j.
pub(crate) fn entry_of(table: &[u64], j: u64) -> Entry
    requires { j ≤ 1536 }
    ensures { result ≡ entry_at table.now j }
{
    let i = 8 * j;
    Entry {
        at: word(table, i),
        master: word(table, i + 1),
        records: word(table, i + 2),
        dg: word(table, i + 3),
        groups: word(table, i + 4),
        count: word(table, i + 5),
        fragments: word(table, i + 6),
        words: word(table, i + 7),
    }
}

// The DG at d with the items past it from item i on; m fragments and j groups are before its own, nf fragments are all.
fn owner_of(source: &[u64], n: u64, nf: u64, i: u64, d: u64, m: u64, j: u64) -> Owner
    requires { (n ≤ 1536) × (nf ≤ 1024) × (j ≤ 1536) }
    ensures { result ≡ owner_of nf d m j (items_from source.now i (n - i)) }
{
    let count = own_groups(source, n, i);
    let end = end_of(source, n, i, nf).min(nf);
    if m < end {
        return Owner {
            dg: d,
            groups: 3072 + j,
            count,
            fragments: 3 * m,
            words: 3 * (end - m),
        };
    }
    Owner {
        dg: d,
        groups: 3072 + j,
        count,
        fragments: 0,
        words: 0,
    }
}

// Group j, with its CG at g and its channels from item i on.
fn put_entry(
    image: &[u8],
    source: &[u64],
    table: &mut [u64],
    n: u64,
    i: u64,
    g: u64,
    j: u64,
    owner: Owner,
)
    requires { (n ≤ 1536) × (j ≤ 1536) }
    ensures { table.new
        ≡ blit (8 * j) (entry_words (entry_in image.now source.now owner j g (items_from source.now i (n - i)))) table.old }
{
    let master = own_of(image, source, n, i, g);
    let records = word(source, 3584 + j);
    put_column(
        table,
        j,
        [
            g,
            master,
            records,
            owner.dg,
            owner.groups,
            owner.count,
            owner.fragments,
            owner.words,
        ],
    );
}

// All groups of n items; their number.
pub(crate) fn fill_table(image: &[u8], source: &[u64], table: &mut [u64], n: u64, nf: u64) -> u64
    requires { (n ≤ 1536) × (nf ≤ 1024) }
    ensures { (result ≡ length (entries image.now source.now nf nobody 0 (items_from source.now 0 n)))
        × (table.new
        ≡ blit 0 (table_words (entries image.now source.now nf nobody 0 (items_from source.now 0 n))) table.old) }
{
    let mut j: u64 = 0;
    let mut owner = Owner {
        dg: 0,
        groups: 0,
        count: 0,
        fragments: 0,
        words: 0,
    };
    for i in 0..n {
        let mark = word(source, 1536 + i);
        let at = word(source, i);
        if mark == 1 {
            put_entry(image, source, table, n, i + 1, at, j, owner);
            j += 1;
        } else if mark != 0 {
            owner = owner_of(source, n, nf, i + 1, at, mark - 2, j);
        }
    }
    j
}

// n words of w from word a on, as many as there are.
pub(crate) fn words_from(w: &[u64], a: u64, n: u64) -> &[u64]
    ensures { result.now ≡ part a n w.now }
{
    let rest = &w[a.min(w.len() as u64) as usize..];
    &rest[..n.min(rest.len() as u64) as usize]
}
