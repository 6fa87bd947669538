// What the words of reading hold of a DG: its fragments and its groups.
ghost use Rattle.std.specs.Prelude.{◌≡◌, ◌-◌};
ghost use Rattle.writing.specs.Own.{OwnOf, Knows};

use planning::span::{past_dg, rest_of};
use planning::words::word;

// Its fragments from number begin up to number end; before its groups, groups in number, are others, first in number.
#[derive(Clone, Copy)]
pub struct Own {
    pub begin: u64,
    pub end: u64,
    pub first: u64,
    pub groups: u64,
}

// Of the DG at d, among n items, with nf fragments.
pub fn own_of(source: &[u64], n: u64, nf: u64, d: u64) -> Own
    ensures { OwnOf source.now n nf d result }
{
    let past = past_dg(source, n, d);
    let rest = rest_of(source, n, past.item, nf);
    let end = rest.end.min(nf);
    let begin = word(source, 1535 + past.item).saturating_sub(2).min(end);
    Own {
        begin,
        end,
        first: past.groups,
        groups: rest.groups,
    }
}

// Two DG that were asked for, the last one first, and what is held of them: columns of two DG by turns search for neither again.
#[derive(Drop)]
pub struct Known {
    pub parent: u64,
    pub own: Own,
    pub before: u64,
    pub other: Own,
}

// Of a DG at 0 at first.
pub(crate) fn known_first(source: &[u64], n: u64, nf: u64) -> Known
    ensures { Knows source.now n nf result }
{
    let own = own_of(source, n, nf, 0);
    Known {
        parent: 0,
        own,
        before: 0,
        other: own,
    }
}

// The DG at d is the last one: what is known of it, else found.
pub(crate) fn known_of(source: &[u64], n: u64, nf: u64, known: Known, d: u64) -> Known
    requires { Knows source.now n nf known }
    ensures { Knows source.now n nf result × OwnOf source.now n nf d result.own }
{
    if known.parent == d {
        return known;
    }
    let last = known.own;
    if known.before == d {
        let other = known.other;
        return Known {
            parent: d,
            own: other,
            before: known.parent,
            other: last,
        };
    }
    let found = own_of(source, n, nf, d);
    Known {
        parent: d,
        own: found,
        before: known.parent,
        other: last,
    }
}
