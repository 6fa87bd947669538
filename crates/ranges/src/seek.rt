// Bytes counted in records, block by block.
ghost use Rattle.std.specs.Prelude.{◌≡◌, eqb, ◌*◌, ◌≤◌, ◌<◌, length};
ghost use Rattle.base.specs.Blit.{blit, part};
ghost use Rattle.base.specs.Checked.{fine};
ghost use Rattle.mdf.specs.Records.{ranges_in, joined, size_of};
ghost use Rattle.ranges.specs.Blocks.{listed_from};
ghost use Rattle.ranges.specs.Seek.{TakenOff, FirstIn, seek_in, spotted};

use crate::block::bytes_at;
use blocks::block::link_at;
use puts::copy;

// What is left of records and bytes past a block.
#[derive(Clone, Copy)]
pub struct Rest {
    pub left: u64,
    pub off: u64,
}

// The link of the block that holds a byte, past all links for none, and the byte's place in the block.
#[derive(Clone, Copy)]
pub struct Spot {
    pub link: u64,
    pub place: u64,
}

// left records of w bytes and off bytes, less the z bytes of a block; none where they lie inside it.
fn take_off(left: u64, off: u64, z: u64, w: u64) -> Option<Rest>
    requires { (off < w) × (w ≤ 8589934590) }
    ensures { TakenOff left off z w result }
{
    let q = z / w;
    let r = z % w;
    if left < q {
        return None;
    }
    if r <= off {
        return Some(Rest {
            left: left - q,
            off: off - r,
        });
    }
    if left == q {
        return None;
    }
    Some(Rest {
        left: left - q - 1,
        off: off + w - r,
    })
}

// Whether the blocks of the DL at a hold exactly so many records of w bytes.
pub(crate) fn sums(image: &[u8], a: u64, links: u64, records: u64, w: u64) -> bool
    requires { (0 < w) × (w ≤ 8589934590) }
    ensures { result ≡ eqb (size_of (listed_from image.now a links 1)) (records * w) }
{
    let mut left = records;
    let mut off: u64 = 0;
    for i in 1..links {
        let z = bytes_at(image, link_at(image, a, i));
        let Some(rest) = take_off(left, off, z, w) else {
            return false;
        };
        left = rest.left;
        off = rest.off;
    }
    left == 0 && off == 0
}

// The block that holds the first byte of a record.
pub(crate) fn seek(image: &[u8], a: u64, links: u64, first: u64, w: u64) -> Spot
    requires { (0 < w) × (w ≤ 8589934590) }
    ensures { spotted image.now a links result ≡ seek_in (listed_from image.now a links 1) (first * w) }
{
    let mut left = first;
    let mut off: u64 = 0;
    for i in 1..links {
        let z = bytes_at(image, link_at(image, a, i));
        let Some(rest) = take_off(left, off, z, w) else {
            return Spot {
                link: i,
                place: left * w + off,
            };
        };
        left = rest.left;
        off = rest.off;
    }
    Spot {
        link: links,
        place: 0,
    }
}

// The bytes from a spot on fill the buffer.
pub(crate) fn copy_from(image: &[u8], a: u64, links: u64, spot: Spot, buffer: &mut [u8])
    requires { (ranges_in image.now (listed_from image.now a links spot.link) ≡ fine) × FirstIn (listed_from image.now a links spot.link) spot.place }
    ensures { buffer.new ≡
        blit 0 (part spot.place (length buffer.old) (joined image.now (listed_from image.now a links spot.link))) buffer.old }
{
    let all = buffer.len() as u64;
    let mut done: u64 = 0;
    let mut p = spot.place;
    for i in spot.link..links {
        if done == all {
            return;
        }
        let x = link_at(image, a, i);
        let n = (bytes_at(image, x) - p).min(all - done);
        copy(buffer, done as usize, image, x + 24 + p, n);
        done += n;
        p = 0;
    }
}
