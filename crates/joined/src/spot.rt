// A place in joined data, by its offset.
ghost use Rattle.std.specs.Prelude.{◌≡◌, List, ℕ, ◌≤◌, ◌<◌, length};
ghost use Rattle.base.specs.Checked.{fine};
ghost use Rattle.mdf.specs.Records.{most64, ranges_in, size_of};
ghost use Rattle.work_words.specs.Words.{fragments_of};
ghost use Rattle.joined.specs.Spot.{front, SpotOf};

use crate::cursor::{Cursor, settle, skip};

// A cursor and the bytes before it.
#[derive(Clone, Copy)]
pub struct Spot {
    pub cursor: Cursor,
    pub offset: u64,
}

// The place before all bytes.
pub fn begin() -> Spot
    ensures { result ≡ front }
{
    let cursor = Cursor {
        at: 0,
        position: 0,
        left: 0,
    };
    Spot { cursor, offset: 0 }
}

// The place at an offset, from a place before it on: in a fragment that has bytes there.
fn onto(fragments: &[u64], p: Spot, offset: u64) -> Spot
    requires { p.offset ≤ offset }
    ensures { (s : List ℕ) → length s ≤ most64 → SpotOf s fragments.now p
        → ranges_in s (fragments_of fragments.now) ≡ fine → offset < size_of (fragments_of fragments.now)
        → SpotOf s fragments.now result × (result.offset ≡ offset) }
{
    let c = skip(fragments, p.cursor, offset - p.offset);
    let cursor = settle(fragments, c);
    Spot { cursor, offset }
}

// From any place on: where it lies past the offset, from the front.
pub fn reach(fragments: &[u64], p: Spot, offset: u64) -> Spot
    ensures { (s : List ℕ) → length s ≤ most64 → SpotOf s fragments.now p
        → ranges_in s (fragments_of fragments.now) ≡ fine → offset < size_of (fragments_of fragments.now)
        → SpotOf s fragments.now result × (result.offset ≡ offset) }
{
    if offset < p.offset {
        return onto(fragments, begin(), offset);
    }
    onto(fragments, p, offset)
}
