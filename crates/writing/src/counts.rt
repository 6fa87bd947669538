// The counts of the report, from the words of reading and planning.
ghost use Rattle.std.specs.Prelude.{◌≡◌, ℕ, ◌<◌, ◌≤◌};
ghost use Rattle.writing.specs.Sum.{sum_of};
ghost use Rattle.writing.specs.Counted.{group_at, time_at, data_blocks_at, blocks_at, Few};

use channels::{block_count, is_storage, width_of};
use planning::words::word;

// 1 where item i is a CG that is not VLSD storage.
fn group_at(image: &[u8], source: &[u64], i: u64) -> u64
    requires { i < 1536 }
    ensures { Few 1 (group_at image.now source.now i) result }
{
    if word(source, 1536 + i) == 1 && !is_storage(image, word(source, i)) {
        return 1;
    }
    0
}

// The groups among n items that are not VLSD storage.
pub(crate) fn source_groups(image: &[u8], source: &[u64], n: u64) -> u64
    requires { n ≤ 1536 }
    ensures { result ≡ sum_of (group_at image.now source.now) 0 n }
{
    let mut sum: u64 = 0;
    for i in 0..n {
        sum += group_at(image, source, i);
    }
    sum
}

// 1 where column k is a time column.
fn time_at(columns: &[u64], k: u64) -> u64
    requires { k < 512 }
    ensures { Few 1 (time_at columns.now k) result }
{
    if word(columns, 8 * k + 4) == 1 { 1 } else { 0 }
}

// The time columns among n.
pub(crate) fn time_columns(columns: &[u64], n: u64) -> u64
    requires { n ≤ 512 }
    ensures { Few n (sum_of (time_at columns.now) 0 n) result }
{
    let mut sum: u64 = 0;
    for k in 0..n {
        sum += time_at(columns, k);
    }
    sum
}

// The data blocks of column k, and one for its signal data.
fn blocks_at(image: &[u8], size: u64, columns: &[u64], k: u64) -> u64
    requires { (k < 512) × (data_blocks_at image.now size columns.now k ≤ 4294967295) }
    ensures { Few 4294967296 (blocks_at image.now size columns.now k) result }
{
    let c = word(columns, 8 * k);
    let g = word(columns, 8 * k + 1);
    let records = word(columns, 8 * k + 3);
    let width = width_of(image, g, c);
    let blocks = block_count(size, width, records);
    if word(columns, 8 * k + 6) == 0 {
        return blocks;
    }
    blocks + 1
}

// The data blocks of n columns.
pub(crate) fn blocks_written(image: &[u8], size: u64, columns: &[u64], n: u64) -> u64
    requires { (n ≤ 512) × ((k : ℕ) → k < n → data_blocks_at image.now size columns.now k ≤ 4294967295) }
    ensures { result ≡ sum_of (blocks_at image.now size columns.now) 0 n }
{
    let mut sum: u64 = 0;
    for k in 0..n {
        sum += blocks_at(image, size, columns, k);
    }
    sum
}
