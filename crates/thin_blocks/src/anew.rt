// Data blocks and SD made anew: a header without links, the data as it was.
ghost use Rattle.std.specs.Prelude.{◌≡◌, ◌+◌, min, length};
ghost use Rattle.ranges.specs.Blocks.{block_in, listed_from};
ghost use Rattle.thin.specs.Fill.{kind_number};
ghost use Rattle.thin_blocks.specs.Anew.{Anew, Moves};

use blocks::block::{DT, DV, kind_at, link_at};
use puts::{copy, header};
use ranges::block::bytes_at;

// Where the data of a block at x without links begins, or the image's end where it begins past it.
fn past_header(image: &[u8], x: u64) -> u64
    ensures { result ≡ min (x + 24) (length image.now) }
{
    x.saturating_add(24).min(image.len() as u64)
}

// A block of the kind with the data of the block at x, at the front of d; how many bytes of that data the image has.
pub fn put_anew(d: &mut [u8], kind: u64, image: &[u8], x: u64) -> u64
    ensures { Anew image.now kind x d.old d.new result }
{
    let from = past_header(image, x);
    let n = bytes_at(image, x);
    let here = n.min(image.len() as u64 - from);
    header(d, kind, 24 + here, 0);
    copy(d, 24, image, from, n);
    here
}

// The kind of the block at x, which is a DT or else a DV.
fn kind_of(image: &[u8], x: u64) -> u64
    ensures { result ≡ kind_number (block_in image.now x).kind }
{
    if kind_at(image, x) == DT { DT } else { DV }
}

// The data blocks that the DL at a with so many links lists, one after the other at the front of d; the index past them.
pub fn put_moved(d: &mut [u8], image: &[u8], a: u64, links: u64) -> usize
    ensures { Moves image.now (listed_from image.now a links 1) d.old d.new result }
{
    let room = d.len();
    let mut p: usize = 0;
    for i in 1..links {
        let x = link_at(image, a, i);
        let n = put_anew(&mut d[p..], kind_of(image, x), image, x);
        let left = (room - p) as u64;
        if left < 24 + n {
            return p;
        }
        p += (24 + n) as usize;
    }
    p
}
