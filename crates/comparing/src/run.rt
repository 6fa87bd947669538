// Equal cells of records at equal distances, in both groups.
ghost use Rattle.std.specs.Prelude.{◌≡◌, length};
ghost use Rattle.cells.specs.Shape.{Shaped};
ghost use Rattle.cells.specs.Strided.{Lying};
ghost use Rattle.comparing.specs.Run.{RunHere, StridedSame, SomeSame};

use crate::cell::{cell_same, here_same};
use crate::head::Head;
use cells::cell::Shape;
use cells::run::{lies_here, run_of};
use joined::cursor::Cursor;

// Records of each group that were compared: how many, and whether their cells are equal.
#[derive(Drop)]
pub struct Compared {
    pub equal: bool,
    pub count: u64,
}

// How many of n records from the cursor on lie whole in its fragment, if that lies in the image.
fn run_here(image: &[u8], k: Cursor, stride: u64, n: u64, bytes: u64) -> u64
    ensures { RunHere image.now k stride n bytes result }
{
    if n == 0 || !lies_here(image, k, bytes) {
        return 0;
    }
    run_of(k.left - bytes, stride, n)
}

// The cells of n records in the image: one group's from p on, the other's from q on.
fn strided_same(
    image: &[u8],
    p: usize,
    stride: usize,
    h: Shape,
    q: usize,
    step: usize,
    i: Shape,
    n: u64,
) -> bool
    requires { Shaped image.now h × Shaped image.now i × (h.bytes ≡ i.bytes) × (h.keep ≡ i.keep)
        × Lying (length image.now) h.length p stride n × Lying (length image.now) i.length q step n }
    ensures { StridedSame image.now p stride h q step i n result }
{
    let mut a = p;
    let mut b = q;
    let mut left = n;
    loop {
        if !here_same(image, a, h, b, i) {
            return false;
        }
        if left == 1 {
            return true;
        }
        a += stride;
        b += step;
        left -= 1;
    }
}

// The cells of the next records: of those that lie whole in one fragment of each, else of one.
pub(crate) fn some_same(
    image: &[u8],
    one: &[u64],
    p: Head,
    h: Shape,
    two: &[u64],
    q: Head,
    i: Shape,
) -> Compared
    requires { Shaped image.now h × Shaped image.now i × (h.bytes ≡ i.bytes) × (h.keep ≡ i.keep) }
    ensures { SomeSame image.now one.now p h two.now q i result }
{
    let a = p.spot.cursor;
    let b = q.spot.cursor;
    let x = run_here(image, a, p.stride, p.count, h.length);
    let y = run_here(image, b, q.stride, q.count, i.length);
    let m = x.min(y);
    if m == 0 {
        let equal = cell_same(image, one, a, h, two, b, i);
        return Compared { equal, count: 1 };
    }
    let equal = strided_same(
        image,
        a.position as usize,
        p.stride as usize,
        h,
        b.position as usize,
        q.stride as usize,
        i,
        m,
    );
    Compared { equal, count: m }
}
