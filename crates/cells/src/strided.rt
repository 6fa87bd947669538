// The cells of records at equal distances in the image.
ghost use Rattle.std.specs.Prelude.{◌≡◌, true, false, ◌+◌, ◌*◌, ◌≤◌, length};
ghost use Rattle.base.specs.Blit.{blit};
ghost use Rattle.result.specs.Payload.{cells};
ghost use Rattle.places.specs.Stretch.{records_at, spaced};
ghost use Rattle.cells.specs.Shape.{Shaped, Sound};
ghost use Rattle.cells.specs.Strided.{Lying};

use crate::cell::{Shape, cell_here};

// Of n records, the first at from, each as far from the one before; w and keep as in the shape.
fn strided(
    out: &mut [u8],
    to: usize,
    image: &[u8],
    from: usize,
    stride: usize,
    n: u64,
    h: Shape,
    w: usize,
    keep: bool,
)
    requires { Sound h × Lying (length image.now) h.length from stride n × (to + n * h.width ≤ length out.old)
        × (h.bytes ≡ w) × (h.keep ≡ keep) }
    ensures { Shaped image.now h → out.new ≡ blit to (cells image.now h.group h.channel
        (records_at image.now h.length (spaced from stride n))) out.old }
{
    cell_here(out, to, image, from, h, w, keep);
    let width = h.width as usize;
    let mut at = from;
    let mut index = to;
    for done in 1..n {
        at += stride;
        index += width;
        cell_here(out, index, image, at, h, w, keep);
    }
}

// Of 3, 5, 6, 7 and 16 bytes, and of any other number.
fn put_bare_other(
    out: &mut [u8],
    to: usize,
    image: &[u8],
    from: usize,
    stride: usize,
    n: u64,
    h: Shape,
)
    requires { Sound h × Lying (length image.now) h.length from stride n × (to + n * h.width ≤ length out.old)
        × (h.keep ≡ false) }
    ensures { Shaped image.now h → out.new ≡ blit to (cells image.now h.group h.channel
        (records_at image.now h.length (spaced from stride n))) out.old }
{
    if h.bytes == 3 {
        strided(out, to, image, from, stride, n, h, 3, false);
        return;
    }
    if h.bytes == 5 {
        strided(out, to, image, from, stride, n, h, 5, false);
        return;
    }
    if h.bytes == 6 {
        strided(out, to, image, from, stride, n, h, 6, false);
        return;
    }
    if h.bytes == 7 {
        strided(out, to, image, from, stride, n, h, 7, false);
        return;
    }
    if h.bytes == 16 {
        strided(out, to, image, from, stride, n, h, 16, false);
        return;
    }
    strided(out, to, image, from, stride, n, h, h.bytes as usize, false);
}

// The usual widths are given as constants: then no loop asks for the width at each record.
fn put_bare(out: &mut [u8], to: usize, image: &[u8], from: usize, stride: usize, n: u64, h: Shape)
    requires { Sound h × Lying (length image.now) h.length from stride n × (to + n * h.width ≤ length out.old)
        × (h.keep ≡ false) }
    ensures { Shaped image.now h → out.new ≡ blit to (cells image.now h.group h.channel
        (records_at image.now h.length (spaced from stride n))) out.old }
{
    if h.bytes == 8 {
        strided(out, to, image, from, stride, n, h, 8, false);
        return;
    }
    if h.bytes == 4 {
        strided(out, to, image, from, stride, n, h, 4, false);
        return;
    }
    if h.bytes == 2 {
        strided(out, to, image, from, stride, n, h, 2, false);
        return;
    }
    if h.bytes == 1 {
        strided(out, to, image, from, stride, n, h, 1, false);
        return;
    }
    put_bare_other(out, to, image, from, stride, n, h);
}

// Of 3, 5, 6, 7 and 16 bytes, and of any other number.
fn put_kept_other(
    out: &mut [u8],
    to: usize,
    image: &[u8],
    from: usize,
    stride: usize,
    n: u64,
    h: Shape,
)
    requires { Sound h × Lying (length image.now) h.length from stride n × (to + n * h.width ≤ length out.old)
        × (h.keep ≡ true) }
    ensures { Shaped image.now h → out.new ≡ blit to (cells image.now h.group h.channel
        (records_at image.now h.length (spaced from stride n))) out.old }
{
    if h.bytes == 3 {
        strided(out, to, image, from, stride, n, h, 3, true);
        return;
    }
    if h.bytes == 5 {
        strided(out, to, image, from, stride, n, h, 5, true);
        return;
    }
    if h.bytes == 6 {
        strided(out, to, image, from, stride, n, h, 6, true);
        return;
    }
    if h.bytes == 7 {
        strided(out, to, image, from, stride, n, h, 7, true);
        return;
    }
    if h.bytes == 16 {
        strided(out, to, image, from, stride, n, h, 16, true);
        return;
    }
    strided(out, to, image, from, stride, n, h, h.bytes as usize, true);
}

// The same with a kept bit: apart, so that no loop asks for it at each record.
fn put_kept(out: &mut [u8], to: usize, image: &[u8], from: usize, stride: usize, n: u64, h: Shape)
    requires { Sound h × Lying (length image.now) h.length from stride n × (to + n * h.width ≤ length out.old)
        × (h.keep ≡ true) }
    ensures { Shaped image.now h → out.new ≡ blit to (cells image.now h.group h.channel
        (records_at image.now h.length (spaced from stride n))) out.old }
{
    if h.bytes == 8 {
        strided(out, to, image, from, stride, n, h, 8, true);
        return;
    }
    if h.bytes == 4 {
        strided(out, to, image, from, stride, n, h, 4, true);
        return;
    }
    if h.bytes == 2 {
        strided(out, to, image, from, stride, n, h, 2, true);
        return;
    }
    if h.bytes == 1 {
        strided(out, to, image, from, stride, n, h, 1, true);
        return;
    }
    put_kept_other(out, to, image, from, stride, n, h);
}

// Of n records of any channel.
pub(crate) fn put_strided(
    out: &mut [u8],
    to: usize,
    image: &[u8],
    from: usize,
    stride: usize,
    n: u64,
    h: Shape,
)
    requires { Sound h × Lying (length image.now) h.length from stride n × (to + n * h.width ≤ length out.old) }
    ensures { Shaped image.now h → out.new ≡ blit to (cells image.now h.group h.channel
        (records_at image.now h.length (spaced from stride n))) out.old }
{
    if h.keep {
        put_kept(out, to, image, from, stride, n, h);
        return;
    }
    put_bare(out, to, image, from, stride, n, h);
}
