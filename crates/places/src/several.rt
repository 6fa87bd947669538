// The stretches of one of several groups, by framing with tables of the DG's groups.
ghost use Rattle.places.specs.Longer.{LongerBy};
ghost use Rattle.places.specs.Scan.{NextBy};

use crate::frame::next_record;
use crate::stretch::{Next, Scan, Stretch};

// A stretch with the record at p too, if it lies at the distance of the others.
pub(crate) fn longer(t: Stretch, p: u64) -> Option<Stretch>
    ensures { LongerBy t p result }
{
    if t.count == 0 {
        return Some(Stretch {
            first: p,
            stride: 0,
            count: 1,
            ..t
        });
    }
    if p < t.first {
        return None;
    }
    if t.count == 1 {
        return Some(Stretch {
            stride: p - t.first,
            count: 2,
            ..t
        });
    }
    if 4294967295 < t.count {
        return None;
    }
    if 4294967295 < t.stride {
        return None;
    }
    if p - t.first != t.count * t.stride {
        return None;
    }
    Some(Stretch {
        count: t.count + 1,
        ..t
    })
}

// The next records of group k as far as they are at equal distances; ids have n bytes.
pub fn several_next(
    image: &[u8],
    n: u64,
    groups: &[u64],
    k: u64,
    fragments: &[u64],
    ids: &[u64; 512],
    sizes: &[u64; 512],
    hints: &mut [u64; 1536],
    scan: Scan,
) -> Next
    ensures { NextBy image.now n k groups.now fragments.now ids.now sizes.now scan result }
{
    let mut stretch = Stretch {
        number: scan.number,
        first: 0,
        stride: 0,
        count: 0,
    };
    let mut c = scan;
    let mut last = k;
    'records: loop {
        let next = next_record(image, n, groups, fragments, ids, sizes, hints, last, c);
        let Some(r) = next else {
            return Next { stretch, scan: c };
        };
        if r.group == k {
            let Some(more) = longer(stretch, r.place) else {
                return Next { stretch, scan: c };
            };
            if c.number == 18446744073709551615 {
                return Next { stretch, scan: c };
            }
            stretch = more;
            c = Scan {
                number: c.number + 1,
                ..r.past
            };
            last = k;
        } else {
            c = r.past;
            last = r.group;
        }
    }
}
