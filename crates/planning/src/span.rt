// The groups and fragments of a DG, among the items past it. Items past the 1,536th do not count.
ghost use Rattle.std.specs.Prelude.{◌≡◌, ◌-◌, min, length, get_or};
ghost use Rattle.mdf.specs.Walk.{level_cg, tally};
ghost use Rattle.mdf.specs.Group.{addresses, groups_of, up_to};
ghost use Rattle.planning.specs.Items.{items_from};
ghost use Rattle.planning.specs.Span.{past_dg};

use crate::words::word;

// The number of groups from item i on up to the next DG, of n items.
pub fn own_groups(source: &[u64], n: u64, i: u64) -> u64
    ensures { result ≡ length (groups_of (items_from source.now i (min n 1536 - i))) }
{
    let m = n.min(1536);
    let mut groups: u64 = 0;
    for k in i..m {
        let mark = word(source, 1536 + k);
        if 1 < mark {
            return groups;
        }
        groups += mark;
    }
    groups
}

// The address of the first of them, 0 for none.
pub fn first_group(source: &[u64], n: u64, i: u64) -> u64
    ensures { result ≡ get_or (addresses (groups_of (items_from source.now i (min n 1536 - i)))) 0 0 }
{
    let m = n.min(1536);
    for k in i..m {
        let mark = word(source, 1536 + k);
        if 1 < mark {
            return 0;
        }
        if mark == 1 {
            return word(source, k);
        }
    }
    0
}

// The number of fragments before the next DG's own, or all.
pub fn end_of(source: &[u64], n: u64, i: u64, all: u64) -> u64
    ensures { result ≡ up_to all (items_from source.now i (min n 1536 - i)) }
{
    let m = n.min(1536);
    for k in i..m {
        let mark = word(source, 1536 + k);
        if 1 < mark {
            return mark - 2;
        }
    }
    all
}

// Where a DG stands: the number of the item past it, and how many of the items before that are CG.
#[derive(Drop)]
pub struct Past {
    pub item: u64,
    pub groups: u64,
}

// Of the first DG at d; of all items where there is none.
pub fn past_dg(source: &[u64], n: u64, d: u64) -> Past
    ensures { (result.item ≡ past_dg d 0 (items_from source.now 0 (min n 1536)))
        × (result.groups ≡ tally level_cg.own (items_from source.now 0 (min result.item (min n 1536)))) }
{
    let m = n.min(1536);
    let mut groups: u64 = 0;
    for k in 0..m {
        let mark = word(source, 1536 + k);
        if 1 < mark {
            if word(source, k) == d {
                return Past {
                    item: k + 1,
                    groups,
                };
            }
        } else {
            groups += mark;
        }
    }
    Past { item: m, groups }
}

// What follows a DG: the number of its groups, and of the fragments before the next DG's own.
#[derive(Drop)]
pub struct Rest {
    pub groups: u64,
    pub end: u64,
}

// From item i on, of n items; the fragments are all where no DG follows.
pub fn rest_of(source: &[u64], n: u64, i: u64, all: u64) -> Rest
    ensures { (result.groups ≡ length (groups_of (items_from source.now i (min n 1536 - i))))
        × (result.end ≡ up_to all (items_from source.now i (min n 1536 - i))) }
{
    let m = n.min(1536);
    let mut groups: u64 = 0;
    for k in i..m {
        let mark = word(source, 1536 + k);
        if 1 < mark {
            return Rest {
                groups,
                end: mark - 2,
            };
        }
        groups += mark;
    }
    Rest { groups, end: all }
}
