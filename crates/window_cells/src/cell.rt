// The cell of a record over a window.
ghost use Rattle.std.specs.Prelude.{◌≡◌};
ghost use Rattle.window_cells.specs.Cell.{KeptAt, LaysCell};

use crate::data::lay_joined;
use cells::cell::Shape;
use joined::cursor::byte_at;
use joined::spot::{begin, reach};
use windows::lay;

// The kept bit of the record at an offset of the joined data.
fn kept_at(image: &[u8], fragments: &[u64], h: Shape, offset: u64) -> u8
    ensures { KeptAt image.now fragments.now h offset result }
{
    if 7 < h.bit {
        return 0;
    }
    let k = reach(fragments, begin(), offset);
    let x = byte_at(image, fragments, k.cursor, h.inval);
    (x >> h.bit) % 2
}

// The cell of the record at an offset of the joined data; it stands at index at of the file.
pub fn lay_cell(
    w: &mut [u8],
    a: u64,
    at: u64,
    image: &[u8],
    fragments: &[u64],
    h: Shape,
    offset: u64,
)
    ensures { LaysCell image.now fragments.now h a at offset w.old w.new }
{
    let Some(from) = offset.checked_add(h.first) else {
        return;
    };
    let Some(place) = at.checked_add(h.bytes) else {
        return;
    };
    lay_joined(w, a, at, image, fragments, from, h.bytes);
    if !h.keep {
        return;
    }
    let bit = [kept_at(image, fragments, h, offset)];
    lay(w, a, place, &bit, 0, 1);
}
