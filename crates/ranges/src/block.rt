// The data blocks that a DL lists.
ghost use Rattle.std.specs.Prelude.{◌≡◌, ◌-◌};
ghost use Rattle.mdf.specs.Block.{size_at};
ghost use Rattle.ranges.specs.Blocks.{links_of};

use blocks::block::{links_at, size_at};

// The data bytes of the block at x; a length under 24 leaves none.
pub fn bytes_at(image: &[u8], x: u64) -> u64
    ensures { result ≡ size_at image.now x - 24 }
{
    size_at(image, x).saturating_sub(24)
}

// The links of the DL at a, none where a is 0.
pub fn links_of(image: &[u8], a: u64) -> u64
    ensures { result ≡ links_of image.now a }
{
    if a == 0 {
        return 0;
    }
    links_at(image, a)
}
