// Equal cells of two records.
ghost use Rattle.std.specs.Prelude.{◌≡◌, ◌+◌, ◌≤◌, length};
ghost use Rattle.cells.specs.Shape.{Shaped};
ghost use Rattle.comparing.specs.Same.{JoinedSame, CellSame, HereSame};

use cells::cell::Shape;
use joined::cursor::{Cursor, byte_at, settle, skip};
use sharing::bytes::parts_same;

// The w bytes from cursor a on are those from cursor b on.
fn joined_same(image: &[u8], one: &[u64], a: Cursor, two: &[u64], b: Cursor, w: u64) -> bool
    ensures { JoinedSame image.now one.now a two.now b w result }
{
    let mut j = a;
    let mut k = b;
    let mut left = w;
    while 0 < left {
        let p = settle(one, j);
        let q = settle(two, k);
        let m = left.min(p.left).min(q.left);
        if m == 0 {
            return false;
        }
        if !parts_same(image, p.position, q.position, m) {
            return false;
        }
        j = skip(one, p, m);
        k = skip(two, q, m);
        left -= m;
    }
    true
}

// The cells of the records that begin at the cursors, in any fragments: of one number of bytes each, with or without a kept bit.
pub(crate) fn cell_same(
    image: &[u8],
    one: &[u64],
    a: Cursor,
    h: Shape,
    two: &[u64],
    b: Cursor,
    i: Shape,
) -> bool
    requires { Shaped image.now h × Shaped image.now i × (h.bytes ≡ i.bytes) × (h.keep ≡ i.keep) }
    ensures { CellSame image.now one.now a h two.now b i result }
{
    let p = skip(one, a, h.first);
    let q = skip(two, b, i.first);
    if !joined_same(image, one, p, two, q, h.bytes) {
        return false;
    }
    if h.keep {
        let x = byte_at(image, one, a, h.inval);
        let y = byte_at(image, two, b, i.inval);
        return (x >> h.bit) % 2 == (y >> i.bit) % 2;
    }
    true
}

// The cells of the records at p and at q in the image.
pub(crate) fn here_same(image: &[u8], p: usize, h: Shape, q: usize, i: Shape) -> bool
    requires { Shaped image.now h × Shaped image.now i × (h.bytes ≡ i.bytes) × (h.keep ≡ i.keep)
        × (p + h.length ≤ length image.now) × (q + i.length ≤ length image.now) }
    ensures { HereSame image.now p h q i result }
{
    if !parts_same(image, p as u64 + h.first, q as u64 + i.first, h.bytes) {
        return false;
    }
    if h.keep {
        let x = image[p + h.inval as usize];
        let y = image[q + i.inval as usize];
        return (x >> h.bit) % 2 == (y >> i.bit) % 2;
    }
    true
}
