// Signal data: the joined data of a channel's SD chain, as one SD block.
ghost use Rattle.std.specs.Prelude.{◌≡◌, ◌%◌, ◌^◌, length};
ghost use Rattle.base.specs.Blit.{part, blit};
ghost use Rattle.mdf.specs.Block.{kind_sd};
ghost use Rattle.work_words.specs.Words.{fragments_of};
ghost use Rattle.mdf.specs.Records.{joined};
ghost use Rattle.result.specs.Fill.{block_of};

use puts::{copy, header};

// How many of n bytes from an offset on lie in the image.
fn inside(image: &[u8], offset: u64, n: u64) -> u64
    ensures { result ≡ length (part offset n image.now) }
{
    n.min((image.len() as u64).saturating_sub(offset))
}

// The number of bytes of joined fragments, modulo 2^64.
pub(crate) fn joined_size(image: &[u8], fragments: &[u64]) -> u64
    ensures { result % 2 ^ 64 ≡ length (joined image.now (fragments_of fragments.now)) % 2 ^ 64 }
{
    let n = fragments.len();
    let mut i = 0;
    let mut sum: u64 = 0;
    while 2 < n - i {
        let here = inside(image, fragments[i], fragments[i + 1]);
        sum = sum.wrapping_add(here);
        i += 3;
    }
    sum
}

// The bytes of joined fragments at index at, as many as have room.
fn copy_all(out: &mut [u8], at: usize, image: &[u8], fragments: &[u64])
    ensures { out.new ≡ blit at (joined image.now (fragments_of fragments.now)) out.old }
{
    let n = fragments.len();
    let room = out.len();
    let mut i = 0;
    let mut to = at;
    while 2 < n - i {
        if room <= to {
            return;
        }
        let offset = fragments[i];
        let size = fragments[i + 1];
        let here = inside(image, offset, size);
        copy(out, to, image, offset, size);
        if ((room - to) as u64) < here {
            return;
        }
        to += here as usize;
        i += 3;
    }
}

// The SD block at the front of out.
pub fn write_signal(out: &mut [u8], image: &[u8], fragments: &[u64])
    ensures { out.new ≡ blit 0 (block_of kind_sd (joined image.now (fragments_of fragments.now)))
        out.old }
{
    let size = 24u64.wrapping_add(joined_size(image, fragments));
    header(out, 0x4453_2323, size, 0);
    copy_all(out, 24, image, fragments);
}
