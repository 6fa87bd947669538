// The cell of a record: the bytes of a channel, and its invalidation bit as one byte, if that is kept.
ghost use Rattle.std.specs.Prelude.{◌≡◌, true, false, ◌+◌, ◌≤◌, length, take};
ghost use Rattle.base.specs.Blit.{part, blit};
ghost use Rattle.base.specs.Checked.{fine};
ghost use Rattle.mdf.specs.Records.{ranges_in, joined, size_of};
ghost use Rattle.plan.specs.Channel.{fits};
ghost use Rattle.result.specs.Payload.{cell};
ghost use Rattle.joined.specs.Ahead.{ahead};
ghost use Rattle.cells.specs.Shape.{Shaped, Sound, ShapeOf};

use channels::{
    byte_offset, channel_bytes, inval_bytes_of, inval_position, keeps_inval, samples_of, width_of,
};
use joined::cursor::{Cursor, byte_at, copy_joined, skip};
use puts::copy;

// A channel in the records of its group: where its bytes begin, how many there are, the record's length without its id, whether the
// invalidation bit is kept, and where it is: its byte and its bit in that; the column's width.
#[derive(Clone, Copy)]
pub struct Shape {
    pub group: u64,
    pub channel: u64,
    pub first: u64,
    pub bytes: u64,
    pub length: u64,
    pub keep: bool,
    pub inval: u64,
    pub bit: u32,
    pub width: u64,
}

// The channel at c in the records of the group at g, which it fits.
pub fn shape_of(image: &[u8], g: u64, c: u64) -> Shape
    ensures { fits image.now g c ≡ true → ShapeOf image.now g c result }
{
    let first = byte_offset(image, c);
    let bytes = channel_bytes(image, c);
    let samples = samples_of(image, g);
    let length = samples + inval_bytes_of(image, g);
    let keep = keeps_inval(image, g, c);
    let position = inval_position(image, c);
    let bit = (position % 8) as u32;
    let width = width_of(image, g, c);
    Shape {
        group: g,
        channel: c,
        first,
        bytes,
        length,
        keep,
        inval: samples + position / 8,
        bit,
        width,
    }
}

// Whether the numbers of a shape agree.
pub(crate) fn is_sound(h: Shape) -> bool
    ensures { (result ≡ true → Sound h) × (result ≡ false → Sound h → ⊥) }
{
    if h.length < h.first || h.length - h.first < h.bytes || 8589934591 < h.length || 7 < h.bit {
        return false;
    }
    if h.keep {
        if h.length <= h.inval {
            return false;
        }
        return h.width == h.bytes + 1;
    }
    h.width == h.bytes
}

// A byte of s at index from, at index at.
fn copy1(d: &mut [u8], at: usize, s: &[u8], from: usize)
    requires { (at + 1 ≤ length d.old) × (from + 1 ≤ length s.now) }
    ensures { d.new ≡ blit at (part from 1 s.now) d.old }
{
    d[at] = s[from];
}

// 2, 4 and 8 bytes: all are read before the first is stored, so each number of them is one load and one store.
fn copy2(d: &mut [u8], at: usize, s: &[u8], from: usize)
    requires { (at + 2 ≤ length d.old) × (from + 2 ≤ length s.now) }
    ensures { d.new ≡ blit at (part from 2 s.now) d.old }
{
    let x0 = s[from];
    let x1 = s[from + 1];
    d[at] = x0;
    d[at + 1] = x1;
}

fn copy4(d: &mut [u8], at: usize, s: &[u8], from: usize)
    requires { (at + 4 ≤ length d.old) × (from + 4 ≤ length s.now) }
    ensures { d.new ≡ blit at (part from 4 s.now) d.old }
{
    let x0 = s[from];
    let x1 = s[from + 1];
    let x2 = s[from + 2];
    let x3 = s[from + 3];
    d[at] = x0;
    d[at + 1] = x1;
    d[at + 2] = x2;
    d[at + 3] = x3;
}

fn copy8(d: &mut [u8], at: usize, s: &[u8], from: usize)
    requires { (at + 8 ≤ length d.old) × (from + 8 ≤ length s.now) }
    ensures { d.new ≡ blit at (part from 8 s.now) d.old }
{
    let x0 = s[from];
    let x1 = s[from + 1];
    let x2 = s[from + 2];
    let x3 = s[from + 3];
    let x4 = s[from + 4];
    let x5 = s[from + 5];
    let x6 = s[from + 6];
    let x7 = s[from + 7];
    d[at] = x0;
    d[at + 1] = x1;
    d[at + 2] = x2;
    d[at + 3] = x3;
    d[at + 4] = x4;
    d[at + 5] = x5;
    d[at + 6] = x6;
    d[at + 7] = x7;
}

// 3, 5, 6 and 7 bytes, each by two of these.
fn copy3(d: &mut [u8], at: usize, s: &[u8], from: usize)
    requires { (at + 3 ≤ length d.old) × (from + 3 ≤ length s.now) }
    ensures { d.new ≡ blit at (part from 3 s.now) d.old }
{
    copy2(d, at, s, from);
    copy1(d, at + 2, s, from + 2);
}

fn copy5(d: &mut [u8], at: usize, s: &[u8], from: usize)
    requires { (at + 5 ≤ length d.old) × (from + 5 ≤ length s.now) }
    ensures { d.new ≡ blit at (part from 5 s.now) d.old }
{
    copy4(d, at, s, from);
    copy1(d, at + 4, s, from + 4);
}

fn copy6(d: &mut [u8], at: usize, s: &[u8], from: usize)
    requires { (at + 6 ≤ length d.old) × (from + 6 ≤ length s.now) }
    ensures { d.new ≡ blit at (part from 6 s.now) d.old }
{
    copy4(d, at, s, from);
    copy2(d, at + 4, s, from + 4);
}

fn copy7(d: &mut [u8], at: usize, s: &[u8], from: usize)
    requires { (at + 7 ≤ length d.old) × (from + 7 ≤ length s.now) }
    ensures { d.new ≡ blit at (part from 7 s.now) d.old }
{
    copy4(d, at, s, from);
    copy3(d, at + 4, s, from + 4);
}

// 16 bytes, by two of these.
fn copy16(d: &mut [u8], at: usize, s: &[u8], from: usize)
    requires { (at + 16 ≤ length d.old) × (from + 16 ≤ length s.now) }
    ensures { d.new ≡ blit at (part from 16 s.now) d.old }
{
    copy8(d, at, s, from);
    copy8(d, at + 8, s, from + 8);
}

// Any other number.
fn copy_other(d: &mut [u8], at: usize, s: &[u8], from: usize, n: usize)
    requires { (at + n ≤ length d.old) × (from + n ≤ length s.now) }
    ensures { d.new ≡ blit at (part from n s.now) d.old }
{
    if n == 3 {
        copy3(d, at, s, from);
        return;
    }
    if n == 5 {
        copy5(d, at, s, from);
        return;
    }
    if n == 6 {
        copy6(d, at, s, from);
        return;
    }
    if n == 7 {
        copy7(d, at, s, from);
        return;
    }
    if n == 16 {
        copy16(d, at, s, from);
        return;
    }
    copy(d, at, s, from as u64, n as u64);
}

// n bytes of s from index from, at index at, all of them inside.
pub(crate) fn copy_within(d: &mut [u8], at: usize, s: &[u8], from: usize, n: usize)
    requires { (at + n ≤ length d.old) × (from + n ≤ length s.now) }
    ensures { d.new ≡ blit at (part from n s.now) d.old }
{
    if n == 8 {
        copy8(d, at, s, from);
        return;
    }
    if n == 4 {
        copy4(d, at, s, from);
        return;
    }
    if n == 2 {
        copy2(d, at, s, from);
        return;
    }
    if n == 1 {
        copy1(d, at, s, from);
        return;
    }
    copy_other(d, at, s, from, n);
}

// Of a record that lies at q in the image: w bytes, and a kept bit.
pub(crate) fn cell_here(
    out: &mut [u8],
    to: usize,
    image: &[u8],
    q: usize,
    h: Shape,
    w: usize,
    keep: bool,
)
    requires { Sound h × (q + h.length ≤ length image.now) × (to + h.width ≤ length out.old)
        × (h.bytes ≡ w) × (h.keep ≡ keep) }
    ensures { Shaped image.now h → out.new ≡ blit to
        (cell image.now h.group h.channel (part q h.length image.now)) out.old }
{
    copy_within(out, to, image, q + h.first as usize, w);
    if keep {
        let i = q + h.inval as usize;
        out[to + w] = (image[i] >> h.bit) % 2;
    }
}

// Of a record that begins at the cursor, in several fragments, if it lies in them and they lie in the image.
pub(crate) fn cell_joined(
    out: &mut [u8],
    to: usize,
    image: &[u8],
    fragments: &[u64],
    k: Cursor,
    h: Shape,
)
    requires { Sound h × (to + h.width ≤ length out.old) }
    ensures { Shaped image.now h → ranges_in image.now (ahead fragments.now k) ≡ fine
        → h.length ≤ size_of (ahead fragments.now k)
        → out.new ≡ blit to (cell image.now h.group h.channel
        (take h.length (joined image.now (ahead fragments.now k)))) out.old }
{
    let w = h.bytes;
    let a = skip(fragments, k, h.first);
    copy_joined(out, to, image, fragments, a, w);
    if h.keep {
        let x = byte_at(image, fragments, k, h.inval);
        out[to + w as usize] = (x >> h.bit) % 2;
    }
}
