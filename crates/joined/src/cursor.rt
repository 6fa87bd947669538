// A place in joined fragments, which words give, three each: offset, size and kind.
ghost use Rattle.std.specs.Prelude.{◌≡◌, List, ℕ, ◌+◌, ◌-◌, ◌≤◌, ◌<◌, length, get_or, take};
ghost use Rattle.base.specs.Blit.{blit};
ghost use Rattle.base.specs.Checked.{fine};
ghost use Rattle.mdf.specs.Records.{most64, ranges_in, joined, size_of};
ghost use Rattle.joined.specs.Ahead.{ahead, next_of, moved, past, Settled};

use puts::copy;

// The bytes left from a position of the image on; then the fragments whose words begin at this index.
#[derive(Clone, Copy)]
pub struct Cursor {
    pub at: usize,
    pub position: u64,
    pub left: u64,
}

// The words of a fragment begin before this index.
fn starts(fragments: &[u64]) -> usize
    ensures { result ≡ length fragments.now - 2 }
{
    fragments.len().saturating_sub(2)
}

// The next fragment.
fn next(fragments: &[u64], c: Cursor) -> Cursor
    requires { c.at + 3 ≤ length fragments.now }
    ensures { result ≡ next_of fragments.now c }
{
    let i = c.at;
    Cursor {
        at: i + 3,
        position: fragments[i],
        left: fragments[i + 1],
    }
}

// The place m bytes further on in the fragment, if it has them.
fn onward(c: Cursor, m: u64) -> Cursor
    ensures { (result.at ≡ c.at) × (m ≤ c.left → c.position + m ≤ most64 → result ≡ moved c m) }
{
    if c.left < m || u64::MAX - c.position < m {
        return c;
    }
    Cursor {
        at: c.at,
        position: c.position + m,
        left: c.left - m,
    }
}

// The place m bytes further on, if there are so many in fragments that lie in bytes of an image.
pub fn skip(fragments: &[u64], c: Cursor, m: u64) -> Cursor
    ensures { (s : List ℕ) → length s ≤ most64 → ranges_in s (ahead fragments.now c) ≡ fine
        → m ≤ size_of (ahead fragments.now c) → ahead fragments.now result ≡ past m (ahead fragments.now c) }
{
    let end = starts(fragments);
    let mut k = c;
    let mut more = m;
    while k.left < more {
        if end <= k.at {
            return k;
        }
        more -= k.left;
        k = next(fragments, k);
    }
    onward(k, more)
}

// The first fragment from here on that has bytes, if one has.
pub fn settle(fragments: &[u64], c: Cursor) -> Cursor
    ensures { 0 < size_of (ahead fragments.now c) → Settled fragments.now c result }
{
    let end = starts(fragments);
    let mut k = c;
    while k.left == 0 {
        if end <= k.at {
            return k;
        }
        k = next(fragments, k);
    }
    k
}

// w bytes from here on, at index at, if there are so many in fragments that lie in the image, and room for them.
pub fn copy_joined(out: &mut [u8], at: usize, image: &[u8], fragments: &[u64], c: Cursor, w: u64)
    ensures { ranges_in image.now (ahead fragments.now c) ≡ fine
        → w ≤ size_of (ahead fragments.now c) → at + w ≤ length out.old
        → out.new ≡ blit at (take w (joined image.now (ahead fragments.now c))) out.old }
{
    let room = out.len();
    if room < at || ((room - at) as u64) < w {
        return;
    }
    let end = starts(fragments);
    let mut k = c;
    let mut left = w;
    let mut to = at;
    while 0 < left {
        if k.left == 0 {
            if end <= k.at {
                return;
            }
            k = next(fragments, k);
        } else {
            let m = left.min(k.left);
            copy(out, to, image, k.position, m);
            k = onward(k, m);
            to += m as usize;
            left -= m;
        }
    }
}

// Byte i from the cursor on, if there is one in fragments that lie in the image.
pub fn byte_at(image: &[u8], fragments: &[u64], k: Cursor, i: u64) -> u8
    ensures { ranges_in image.now (ahead fragments.now k) ≡ fine → i < size_of (ahead fragments.now k)
        → result ≡ get_or (joined image.now (ahead fragments.now k)) i 0 }
{
    let b = settle(fragments, skip(fragments, k, i));
    image.get(b.position as usize).copied().unwrap_or(0)
}
