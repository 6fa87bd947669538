// The cells of records whose places words tell: offsets in joined data, one word each.
ghost use Rattle.std.specs.Prelude.{true, false, ◌≡◌, ◌+◌, ◌*◌, ◌≤◌, ◌<◌, length, get_or};
ghost use Rattle.mdf.specs.Records.{size_of};
ghost use Rattle.work_words.specs.Words.{fragments_of};
ghost use Rattle.joined.specs.Spot.{SpotOf};
ghost use Rattle.cells.specs.Shape.{Sound};
ghost use Rattle.cells.specs.Spot.{Readable};
ghost use Rattle.cells.specs.Gathered.{Near, Some, Gathers, FewOrAll};

use crate::cell::{Shape, cell_here, cell_joined, is_sound};
use crate::run::{has_room, lies_here};
use joined::spot::{Spot, reach};

// The place of the last run, and how many cells were put.
#[derive(Drop)]
pub struct Gathered {
    pub spot: Spot,
    pub count: u64,
}

// n words from an index on, offsets in joined data. Offset base lies at a position of the image, and records that begin at most room bytes past it
// lie whole there.
#[derive(Drop)]
pub struct Window {
    pub from: usize,
    pub n: u64,
    pub position: usize,
    pub base: u64,
    pub room: u64,
}

// Of the records that the words tell, up to the first that lies elsewhere. How many they are. w and keep as in the shape.
fn gather(
    out: &mut [u8],
    to: usize,
    image: &[u8],
    words: &[u64],
    v: Window,
    h: Shape,
    w: usize,
    keep: bool,
) -> u64
    requires { Sound h × Near words.now (length image.now) h.length v
        × (to + v.n * h.width ≤ length out.old) × (h.bytes ≡ w) × (h.keep ≡ keep) }
    ensures { Gathers image.now h words.now v to result out.old out.new }
{
    let width = h.width as usize;
    let mut index = to;
    for i in 0..v.n {
        let o = words[v.from + i as usize];
        if o < v.base {
            return i;
        }
        let q = o - v.base;
        if v.room < q {
            return i;
        }
        cell_here(out, index, image, v.position + q as usize, h, w, keep);
        index += width;
    }
    v.n
}

// Of 3, 5, 6, 7 and 16 bytes, and of any other number.
fn other(
    out: &mut [u8],
    to: usize,
    image: &[u8],
    words: &[u64],
    v: Window,
    h: Shape,
    keep: bool,
) -> u64
    requires { Sound h × Near words.now (length image.now) h.length v
        × (to + v.n * h.width ≤ length out.old) × (h.keep ≡ keep) }
    ensures { Gathers image.now h words.now v to result out.old out.new }
{
    if h.bytes == 3 {
        return gather(out, to, image, words, v, h, 3, keep);
    }
    if h.bytes == 5 {
        return gather(out, to, image, words, v, h, 5, keep);
    }
    if h.bytes == 6 {
        return gather(out, to, image, words, v, h, 6, keep);
    }
    if h.bytes == 7 {
        return gather(out, to, image, words, v, h, 7, keep);
    }
    if h.bytes == 16 {
        return gather(out, to, image, words, v, h, 16, keep);
    }
    gather(out, to, image, words, v, h, h.bytes as usize, keep)
}

// The usual widths are given as constants: then no loop asks for the width at each record.
fn usual(
    out: &mut [u8],
    to: usize,
    image: &[u8],
    words: &[u64],
    v: Window,
    h: Shape,
    keep: bool,
) -> u64
    requires { Sound h × Near words.now (length image.now) h.length v
        × (to + v.n * h.width ≤ length out.old) × (h.keep ≡ keep) }
    ensures { Gathers image.now h words.now v to result out.old out.new }
{
    if h.bytes == 8 {
        return gather(out, to, image, words, v, h, 8, keep);
    }
    if h.bytes == 4 {
        return gather(out, to, image, words, v, h, 4, keep);
    }
    if h.bytes == 2 {
        return gather(out, to, image, words, v, h, 2, keep);
    }
    if h.bytes == 1 {
        return gather(out, to, image, words, v, h, 1, keep);
    }
    other(out, to, image, words, v, h, keep)
}

// Of any channel.
fn put_near(out: &mut [u8], to: usize, image: &[u8], words: &[u64], v: Window, h: Shape) -> u64
    requires { Sound h × Near words.now (length image.now) h.length v
        × (to + v.n * h.width ≤ length out.old) }
    ensures { Gathers image.now h words.now v to result out.old out.new }
{
    if h.keep {
        return usual(out, to, image, words, v, h, true);
    }
    usual(out, to, image, words, v, h, false)
}

// The cells of some of n records, the first at the spot: of those that lie whole in its fragment, else of the first. How many they are.
fn put_some(
    out: &mut [u8],
    to: usize,
    image: &[u8],
    fragments: &[u64],
    k: Spot,
    h: Shape,
    words: &[u64],
    from: usize,
    n: u64,
) -> u64
    requires { Sound h × (0 < n) × (from + n ≤ length words.now) × (get_or words.now from 0 ≡ k.offset)
        × (to + n * h.width ≤ length out.old) }
    ensures { Some image.now fragments.now h words.now k from n to result out.old out.new }
{
    let c = k.cursor;
    if lies_here(image, c, h.length) {
        let v = Window {
            from,
            n,
            position: c.position as usize,
            base: k.offset,
            room: c.left - h.length,
        };
        return put_near(out, to, image, words, v, h);
    }
    cell_joined(out, to, image, fragments, c, h);
    1
}

// The cells of n records whose offsets in the joined data, of size bytes, are words from index from on, at index to: of all, or up to the first
// that doesn't lie in the data.
fn put_words(
    out: &mut [u8],
    to: usize,
    image: &[u8],
    fragments: &[u64],
    h: Shape,
    size: u64,
    words: &[u64],
    from: usize,
    n: u64,
    spot: Spot,
) -> Gathered
    requires { Sound h × (from + n ≤ length words.now) × (to + n * h.width ≤ length out.old) }
    ensures { (result.count ≤ n) × (Readable image.now fragments.now h
        → SpotOf image.now fragments.now spot → size ≡ size_of (fragments_of fragments.now)
        → FewOrAll image.now fragments.now h words.now size from n to result out.old out.new) }
{
    let mut k = spot;
    let mut count: u64 = 0;
    let mut index = to;
    if size < h.length {
        return Gathered { spot, count };
    }
    let end = size - h.length;
    while count < n {
        let at = from + count as usize;
        let o = words[at];
        if end < o {
            return Gathered { spot: k, count };
        }
        let near = reach(fragments, k, o);
        let cursor = near.cursor;
        k = Spot { cursor, offset: o };
        let m = put_some(out, index, image, fragments, k, h, words, at, n - count);
        index += (m * h.width) as usize;
        count += m;
    }
    Gathered { spot: k, count }
}

// The cells of n records whose offsets in the joined data, of size bytes, are words from index from on, at index to: of all, or up to the first
// that doesn't lie in the data. None, where the words aren't there, or out has no room for all cells.
pub fn put_gathered(
    out: &mut [u8],
    to: usize,
    image: &[u8],
    fragments: &[u64],
    h: Shape,
    size: u64,
    words: &[u64],
    from: usize,
    n: u64,
    spot: Spot,
) -> Gathered
    ensures { (result.count ≤ n) × (Readable image.now fragments.now h
        → SpotOf image.now fragments.now spot → size ≡ size_of (fragments_of fragments.now)
        → from + n ≤ length words.now → to + n * h.width ≤ length out.old
        → FewOrAll image.now fragments.now h words.now size from n to result out.old out.new) }
{
    if !is_sound(h) || !has_room(words.len(), from, n, 1) || !has_room(out.len(), to, n, h.width) {
        return Gathered { spot, count: 0 };
    }
    put_words(out, to, image, fragments, h, size, words, from, n, spot)
}
