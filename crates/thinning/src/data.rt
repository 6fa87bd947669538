// The data blocks and SD of kept columns, in address order: of each column zeros and its data blocks, zeros and its SD.
ghost use Rattle.std.specs.Prelude.{[], ◌∷◌, ◌+◌, ◌*◌, ◌≤◌, ◌<◌, length};
ghost use Rattle.ranges.specs.Blocks.{listed_from};
ghost use Rattle.result.specs.Fill.{block};
ghost use Rattle.thin.specs.Fill.{moved_blocks};
ghost use Rattle.write_copies.specs.Wrote.{Wrote};
ghost use Rattle.thinning.specs.Data.{sd_bytes, data_in, data_from, MovedRoom, DataRoom, DataReady};

use crate::decided::Decided;
use blocks::block::{SD, link_at};
use ranges::block::links_of;
use thin_blocks::anew::{put_anew, put_moved};
use write_copies::gap::gap;

// Zeros from at up to first, then the blocks that the DL at a with so many links lists; the answer is past them. Without blocks nothing is written.
fn write_moved(out: &mut [u8], at: usize, image: &[u8], a: u64, links: u64, first: usize) -> usize
    requires { MovedRoom image.now at first (listed_from image.now a links 1) (length out.old) }
    ensures { Wrote at (moved_blocks image.now first (listed_from image.now a links 1)) result
        out.old out.new }
{
    if links < 2 {
        return at;
    }
    gap(out, at, first);
    let n = put_moved(&mut out[first..], image, a, links);
    first + n
}

// Zeros from at up to sd, then an SD with the data of the block at x; the answer is past it.
fn write_sd(out: &mut [u8], at: usize, image: &[u8], x: u64, sd: usize) -> usize
    requires { (at ≤ sd) × (sd + length (sd_bytes image.now x) ≤ length out.old) }
    ensures { Wrote at (block sd (sd_bytes image.now x) ∷ []) result out.old out.new }
{
    gap(out, at, sd);
    let n = put_anew(&mut out[sd..], SD, image, x);
    sd + (24 + n) as usize
}

// Of column number k: zeros and its data blocks, zeros and its SD; the answer is past them.
fn write_column(out: &mut [u8], at: usize, file: &Decided, k: u64) -> usize
    requires { DataRoom file.now.image.now file.now.columns.now file.now.memo.now k at (length out.old) }
    ensures { Wrote at (data_in file.now.image.now file.now.columns.now file.now.memo.now k) result out.old out.new }
{
    let i = (8 * k) as usize;
    let j = (6656 + 3 * k) as usize;
    let a = link_at(file.image, file.columns[i + 2], 2);
    let links = links_of(file.image, a);
    let to = write_moved(out, at, file.image, a, links, file.memo[j + 1] as usize);
    if file.columns[i + 6] == 0 {
        return to;
    }
    let x = link_at(file.image, file.columns[i], 5);
    write_sd(out, to, file.image, x, file.memo[j + 2] as usize)
}

// Of all columns, from at on; the answer is past them.
pub(crate) fn write_data(out: &mut [u8], at: usize, file: &Decided) -> usize
    requires { DataReady file.now.image.now file.now.columns.now file.now.memo.now file.now.numbers.columns at (length out.old) }
    ensures { Wrote at (data_from file.now.image.now file.now.columns.now file.now.memo.now 0 file.now.numbers.columns) result
        out.old out.new }
{
    let mut p = at;
    for k in 0..file.numbers.columns {
        p = write_column(out, p, file, k);
    }
    p
}
