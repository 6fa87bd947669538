// The record that follows a place, by framing with tables of the DG's groups.
ghost use Rattle.places.specs.Facing.{FoundAt};

use crate::stretch::Scan;
use records::fragment::word_at;
use records::framing::{Framing, inside};

// A record: the number of its group, where its bytes past the id lie in the joined data, and the place past it.
#[derive(Clone, Copy)]
pub struct Found {
    pub group: u64,
    pub place: u64,
    pub past: Scan,
}

// The record that follows c, if there is one; ids have n bytes, and the group before was number last.
pub fn next_record(
    image: &[u8],
    n: u64,
    groups: &[u64],
    fragments: &[u64],
    ids: &[u64; 512],
    sizes: &[u64; 512],
    hints: &mut [u64; 1536],
    last: u64,
    c: Scan,
) -> Option<Found>
    ensures { FoundAt image.now n groups.now fragments.now ids.now sizes.now c result }
{
    if n == 0 {
        return None;
    }
    let words = fragments.len() as u64;
    let mut spot = Framing {
        at: c.at,
        position: c.position,
        left: c.left,
    };
    'fragments: while inside(image, spot.position, spot.left) == 0 {
        if words < spot.at {
            return None;
        }
        if words - spot.at < 3 {
            return None;
        }
        spot = Framing {
            at: spot.at + 3,
            position: word_at(fragments, spot.at),
            left: word_at(fragments, spot.at + 1),
        };
    }
    let record = spot.step_by(image, n, groups, fragments, ids, sizes, hints, last)?;
    let place = c.offset.checked_add(n)?;
    let offset = place.checked_add(record.bytes)?;
    Some(Found {
        group: record.group,
        place,
        past: Scan {
            at: record.next.at,
            position: record.next.position,
            left: record.next.left,
            offset,
            number: c.number,
        },
    })
}
