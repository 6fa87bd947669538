// Stretches of the groups of several DG, side by side in lent words.
ghost use Rattle.std.specs.Prelude.{◌≡◌, ◌+◌, ◌≤◌, length, IfSome};
ghost use Rattle.places.specs.Pool.{entry_at, kept_by, EntryIn, EntryFor, HeldIn};

use crate::stretch::Stretch;

// A stretch and its number among those that are kept; its count is 0 where there is none.
#[derive(Clone, Copy)]
pub struct Held {
    pub index: u64,
    pub stretch: Stretch,
}

// How many are kept past the first 8 words, of N words each; no more than have room.
pub fn kept_in<const N: usize>(pool: &[u64]) -> u64
    ensures { result ≡ kept_by N pool.now }
{
    let words = pool.len();
    if N == 0 || words < 8 {
        return 0;
    }
    let room = ((words - 8) / N) as u64;
    pool[0].min(room)
}

// Number i, if it is of the group at g of the DG at d.
pub(crate) fn entry_in(pool: &[u64], i: u64, d: u64, g: u64) -> Option<Stretch>
    requires { entry_at (i + 1) ≤ length pool.now }
    ensures { IfSome result (EntryIn pool.now i d g) }
{
    let at = (8 + 6 * i) as usize;
    if pool[at] != d {
        return None;
    }
    if pool[at + 1] != g {
        return None;
    }
    Some(Stretch {
        number: pool[at + 2],
        first: pool[at + 3],
        stride: pool[at + 4],
        count: pool[at + 5],
    })
}

// The same, if it has record r.
fn entry_for(pool: &[u64], i: u64, d: u64, g: u64, r: u64) -> Option<Stretch>
    requires { entry_at (i + 1) ≤ length pool.now }
    ensures { IfSome result (EntryFor pool.now i d g r) }
{
    let stretch = entry_in(pool, i, d, g)?;
    if r < stretch.number {
        return None;
    }
    if stretch.count <= r - stretch.number {
        return None;
    }
    Some(stretch)
}

// The stretch with record r of the group at g of the DG at d, sought from a number on.
pub fn find(pool: &[u64], d: u64, g: u64, r: u64, from: u64) -> Held
    ensures { HeldIn pool.now d g r result }
{
    let n = kept_in::<6>(pool);
    for i in from..n {
        if let Some(stretch) = entry_for(pool, i, d, g, r) {
            return Held { index: i, stretch };
        }
    }
    Held {
        index: from.max(n),
        stretch: Stretch {
            number: 0,
            first: 0,
            stride: 0,
            count: 0,
        },
    }
}
