// The cells of records at equal distances in joined data.
ghost use Rattle.std.specs.Prelude.{◌≡◌, true, false, ◌+◌, ◌*◌, ◌≤◌, ◌<◌, length};
ghost use Rattle.base.specs.Blit.{blit};
ghost use Rattle.base.specs.Checked.{fine};
ghost use Rattle.mdf.specs.Records.{ranges_in, joined, size_of};
ghost use Rattle.work_words.specs.Words.{fragments_of};
ghost use Rattle.result.specs.Payload.{cells};
ghost use Rattle.places.specs.Stretch.{records_at, spaced};
ghost use Rattle.joined.specs.Ahead.{ahead};
ghost use Rattle.joined.specs.Spot.{SpotOf};
ghost use Rattle.cells.specs.Shape.{Shaped, Sound};
ghost use Rattle.cells.specs.Strided.{Lying};
ghost use Rattle.cells.specs.Spot.{Readable, run_in, Roomy};

use crate::cell::{Shape, cell_joined, is_sound};
use crate::strided::put_strided;
use joined::cursor::Cursor;
use joined::spot::{Spot, reach};

// How many of n records begin at most so many bytes past the first one's start; of those that all begin there, the first alone.
pub fn run_of(room: u64, stride: u64, n: u64) -> u64
    ensures { result ≡ run_in room stride n }
{
    if stride == 0 {
        return n.min(1);
    }
    let m = room / stride;
    if n <= m {
        return n;
    }
    m + 1
}

// Whether so many bytes lie at the cursor in its fragment, and that in the image.
pub fn lies_here(image: &[u8], k: Cursor, bytes: u64) -> bool
    ensures { (result ≡ true → (bytes ≤ k.left) × (k.position + k.left ≤ length image.now))
        × ((bytes ≤ k.left) × (k.position + k.left ≤ length image.now) → result ≡ true) }
{
    let end = image.len() as u64;
    if k.left < bytes || end < k.left {
        return false;
    }
    k.position <= end - k.left
}

// The cells of some of n records from the cursor on: of those that lie whole in its fragment, else of the first. How many they are.
fn put_some(
    out: &mut [u8],
    to: usize,
    image: &[u8],
    fragments: &[u64],
    k: Cursor,
    stride: u64,
    n: u64,
    h: Shape,
) -> u64
    requires { Sound h × (0 < n) × (to + n * h.width ≤ length out.old) }
    ensures { (0 < result) × (result ≤ n)
        × (Shaped image.now h → ranges_in image.now (ahead fragments.now k) ≡ fine
        → Lying (size_of (ahead fragments.now k)) h.length 0 stride n
        → out.new ≡ blit to (cells image.now h.group h.channel
        (records_at (joined image.now (ahead fragments.now k)) h.length (spaced 0 stride result))) out.old) }
{
    if lies_here(image, k, h.length) {
        let m = run_of(k.left - h.length, stride, n);
        put_strided(out, to, image, k.position as usize, stride as usize, m, h);
        return m;
    }
    cell_joined(out, to, image, fragments, k, h);
    1
}

// Whether n times w is at most a number.
pub fn product_within(n: u64, w: u64, most: u64) -> bool
    ensures { (result ≡ true → n * w ≤ most) × (n * w ≤ most → result ≡ true) }
{
    if w == 0 {
        return true;
    }
    n <= most / w
}

// Whether n of w each have room from an index on, in size.
pub(crate) fn has_room(size: usize, at: usize, n: u64, w: u64) -> bool
    ensures { (result ≡ true → at + n * w ≤ size) × (result ≡ false → at + n * w ≤ size → ⊥) }
{
    if size < at {
        return false;
    }
    product_within(n, w, (size - at) as u64)
}

// Whether the numbers of n records agree: those of the shape, the room for their cells in size bytes, and the last one's offset.
fn is_roomy(h: Shape, size: usize, to: usize, first: u64, stride: u64, n: u64) -> bool
    ensures { (result ≡ true → Roomy h size to first stride n) × (Roomy h size to first stride n → result ≡ true) }
{
    if n == 0 || !is_sound(h) || !has_room(size, to, n, h.width) {
        return false;
    }
    product_within(n - 1, stride, u64::MAX - first)
}

// The cells of n records, the first at an offset of the joined data, at index to; the place of the last run.
// They are put if the records lie in the data, and out has room for the cells.
pub fn put_stretch(
    out: &mut [u8],
    to: usize,
    image: &[u8],
    fragments: &[u64],
    h: Shape,
    first: u64,
    stride: u64,
    n: u64,
    spot: Spot,
) -> Spot
    ensures { Readable image.now fragments.now h → SpotOf image.now fragments.now spot
        → Lying (size_of (fragments_of fragments.now)) h.length first stride n → to + n * h.width ≤ length out.old
        → SpotOf image.now fragments.now result
        × (out.new ≡ blit to (cells image.now h.group h.channel
        (records_at (joined image.now (fragments_of fragments.now)) h.length (spaced first stride n))) out.old) }
{
    if !is_roomy(h, out.len(), to, first, stride, n) {
        return spot;
    }
    let mut k = spot;
    let mut at = first;
    let mut index = to;
    let mut left = n;
    loop {
        k = reach(fragments, k, at);
        let m = put_some(out, index, image, fragments, k.cursor, stride, left, h);
        if m == left {
            return k;
        }
        left -= m;
        at += m * stride;
        index += (m * h.width) as usize;
    }
}
