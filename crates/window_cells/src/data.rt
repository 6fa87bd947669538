// Joined data over a window.
ghost use Rattle.std.specs.Prelude.{◌≡◌};
ghost use Rattle.window_cells.specs.Data.{LaysJoined};

use joined::cursor::copy_joined;
use joined::spot::{begin, reach};
use windows::seen::seen_in;

// n bytes of the joined data from an offset on, which stand at index at of the file.
pub fn lay_joined(
    w: &mut [u8],
    a: u64,
    at: u64,
    image: &[u8],
    fragments: &[u64],
    offset: u64,
    n: u64,
)
    ensures { LaysJoined image.now fragments.now a at offset n w.old w.new }
{
    let v = seen_in(w.len() as u64, a, at, n);
    if v.count == 0 {
        return;
    }
    let Some(from) = offset.checked_add(v.skip) else {
        return;
    };
    let k = reach(fragments, begin(), from);
    copy_joined(w, v.to as usize, image, fragments, k.cursor, v.count);
}
