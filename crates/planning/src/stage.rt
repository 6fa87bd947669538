// The data stage over planned columns.
ghost use Rattle.std.specs.Prelude.{◌≡◌, ◌≤◌};
ghost use Rattle.planning.specs.Stage.{nonempty_in, BlocksStage};
ghost use Rattle.planning.specs.DataWords.{nonempty_over};

use crate::words::word;
use channels::{block_count, width_of};
use fields::refusal::Refusal;

// Column k is from the DG at d and has bytes.
fn is_nonempty(image: &[u8], columns: &[u64], k: u64, d: u64) -> bool
    requires { k ≤ 4194304 }
    ensures { result ≡ nonempty_in image.now columns.now k d }
{
    if word(columns, 8 * k + 2) != d {
        return false;
    }
    let c = word(columns, 8 * k);
    let g = word(columns, 8 * k + 1);
    0 < width_of(image, g, c) && 0 < word(columns, 8 * k + 3)
}

// Some of the n columns is.
pub(crate) fn any_nonempty(image: &[u8], columns: &[u64], n: u64, d: u64) -> bool
    requires { n ≤ 4194304 }
    ensures { result ≡ nonempty_over image.now columns.now d 0 n }
{
    for k in 0..n {
        if is_nonempty(image, columns, k, d) {
            return true;
        }
    }
    false
}

// 19: a column has too many blocks.
pub(crate) fn blocks_in(image: &[u8], columns: &[u64], n: u64, size: u64) -> Result<(), Refusal>
    requires { n ≤ 4194304 }
    ensures { BlocksStage image.now columns.now n size result }
{
    for k in 0..n {
        let c = word(columns, 8 * k);
        let g = word(columns, 8 * k + 1);
        let records = word(columns, 8 * k + 3);
        let width = width_of(image, g, c);
        if 4294967295 < block_count(size, width, records) {
            return Err(Refusal::OverLimit(c));
        }
    }
    Ok(())
}
