// The records of a group, one after the other.
ghost use Rattle.std.specs.Prelude.{◌≡◌};
ghost use Rattle.comparing.specs.Head.{head_front, NextWith, HeadFor, HeadPast};

use crate::times::Clock;
use joined::spot::{Spot, begin, reach};
use places::several::several_next;
use places::sorted::sorted_next;
use places::stretch::{Next, Scan};
use records::group::id_size;

// The records that are still to come: so many at equal distances, then those past a place; and a place in the data up to which they were read.
#[derive(Clone, Copy)]
pub struct Head {
    pub first: u64,
    pub stride: u64,
    pub count: u64,
    pub scan: Scan,
    pub spot: Spot,
}

// Before all records.
pub(crate) fn head_begin() -> Head
    ensures { result ≡ head_front }
{
    let scan = Scan {
        at: 0,
        position: 0,
        left: 0,
        offset: 0,
        number: 0,
    };
    let spot = begin();
    Head {
        first: 0,
        stride: 0,
        count: 0,
        scan,
        spot,
    }
}

// The next records at equal distances: of a group alone in its DG by sizes, of one of several by the tables of its DG's groups.
fn next_of(
    image: &[u8],
    c: Clock,
    groups: &[u64],
    fragments: &[u64],
    ids: &[u64; 512],
    sizes: &[u64; 512],
    hints: &mut [u64; 1536],
    scan: Scan,
) -> Next
    ensures { NextWith image.now c groups.now fragments.now ids.now sizes.now scan result }
{
    if groups.len() == 1 {
        return sorted_next(image, c.dg, groups[0], fragments, scan);
    }
    let n = id_size(image, c.dg);
    several_next(
        image, n, groups, c.number, fragments, ids, sizes, hints, scan,
    )
}

// With record number at as its first, and the place there.
pub(crate) fn head_at(
    image: &[u8],
    c: Clock,
    groups: &[u64],
    fragments: &[u64],
    ids: &[u64; 512],
    sizes: &[u64; 512],
    hints: &mut [u64; 1536],
    h: Head,
) -> Head
    ensures { HeadFor image.now c groups.now fragments.now ids.now sizes.now h result }
{
    if h.count != 0 {
        let scan = h.scan;
        let spot = reach(fragments, h.spot, h.first);
        return Head {
            first: h.first,
            stride: h.stride,
            count: h.count,
            scan,
            spot,
        };
    }
    let r = next_of(image, c, groups, fragments, ids, sizes, hints, h.scan);
    let scan = r.scan;
    let spot = reach(fragments, h.spot, r.stretch.first);
    Head {
        first: r.stretch.first,
        stride: r.stretch.stride,
        count: r.stretch.count,
        scan,
        spot,
    }
}

// Past its first m records.
pub(crate) fn head_past(h: Head, m: u64) -> Head
    ensures { HeadPast h m result }
{
    let scan = h.scan;
    let spot = h.spot;
    let none = Head {
        first: 0,
        stride: 0,
        count: 0,
        scan,
        spot,
    };
    if m == 0 {
        return none;
    }
    if h.count <= m {
        return none;
    }
    if (18446744073709551615 - h.first) / m < h.stride {
        return none;
    }
    Head {
        first: h.first + m * h.stride,
        stride: h.stride,
        count: h.count - m,
        scan,
        spot,
    }
}
