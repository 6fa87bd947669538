// A placed column, from the words of planning and of placing.
ghost use Rattle.std.specs.Prelude.{◌≡◌, ◌+◌, ◌*◌, ◌<◌, ◌≤◌, length, slice_index};
ghost use Rattle.work_words.specs.CopyWords.{placed_at};
ghost use Rattle.plan.specs.Channel.{channel_type, width};
ghost use Rattle.plan.specs.Geometry.{block_count, block_payload};
ghost use Rattle.result.specs.Fill.{stored_type, sd_link};
ghost use Rattle.writing.specs.PlacedIn.{signal_in};
ghost use Rattle.writing.specs.Structure.{master_place, next_place, column_of, Near, Bounded};

use channels::{block_count, channel_type, per_full, width_of};
use choices::treatment_of;
use photos::photos_of;
use placing::columns::cg_bytes;

// Its CN in the image and the type that it is stored with, its CG and DG, its number of records, whether its master is in another group and that group's new CG; the places of its
// DG, CN, first data block and SD, 0 without signal data; the number of its data blocks, of its references to attachments, and the payload of one.
#[derive(Clone, Copy)]
pub struct PlacedColumn {
    pub channel: u64,
    pub stored: u64,
    pub group: u64,
    pub parent: u64,
    pub records: u64,
    pub remote: bool,
    pub master: u64,
    pub dg: u64,
    pub cn: u64,
    pub first: u64,
    pub sd: u64,
    pub blocks: u64,
    pub photos: u64,
    pub payload: u64,
}

// The link to the SD, by the signal data's word.
fn sd_link(word: u64, sd: u64) -> u64
    ensures { result ≡ sd_link (signal_in word) sd }
{
    if word == 0 { 0 } else { sd }
}

// The master's CG, by its word, of n columns.
fn master_place(memo: &[u64], n: u64, word: u64) -> u64
    requires { (n ≤ 512) × (8192 ≤ length memo.now) }
    ensures { Near memo.now n → result ≡ master_place memo.now n word }
{
    if word == 0 {
        return 0;
    }
    let m = word - 1;
    if n <= m {
        return 0;
    }
    let dg = memo[(6656 + 3 * m) as usize];
    if 9223372036854775808 <= dg {
        return 0;
    }
    dg + 64
}

// The DG of the column after number k, of n columns; any number where the words aren't there.
pub fn place_after(memo: &[u64], n: u64, k: u64) -> u64
    ensures { n ≤ 512 → 8192 ≤ length memo.now → result ≡ next_place memo.now n k }
{
    if n <= k || n - k == 1 || 512 < n || memo.len() < 8192 {
        return 0;
    }
    memo[(6656 + 3 * (k + 1)) as usize]
}

// The same where they are.
pub(crate) fn next_place(memo: &[u64], n: u64, k: u64) -> u64
    requires { Near memo.now n × (k < n) }
    ensures { result ≡ next_place memo.now n k }
{
    place_after(memo, n, k)
}

// How many data blocks a column of n records has.
fn blocks_of(image: &[u8], size: u64, g: u64, c: u64, n: u64) -> u64
    ensures { result ≡ block_count size (width image.now g c) n }
{
    block_count(size, width_of(image, g, c), n)
}

// The payload of one that is not the last, or of the only one.
fn payload_of(image: &[u8], size: u64, g: u64, c: u64, n: u64) -> u64
    ensures { result ≡ block_payload size (width image.now g c) n }
{
    let w = width_of(image, g, c);
    per_full(size, w, n) * w
}

// The type that the CN at c is stored with, by the table.
fn stored_type(image: &[u8], table: &[u8], c: u64) -> u64
    ensures { result ≡ stored_type table.now (channel_type image.now c) }
{
    let t = channel_type(image, c);
    if treatment_of(table, t) == 2 {
        return 0;
    }
    t
}

// No column.
fn no_column() -> PlacedColumn
    ensures { Bounded result }
{
    PlacedColumn {
        channel: 0,
        stored: 0,
        group: 0,
        parent: 0,
        records: 0,
        remote: false,
        master: 0,
        dg: 0,
        cn: 0,
        first: 0,
        sd: 0,
        blocks: 0,
        photos: 0,
        payload: 0,
    }
}

// Column number k of n, where its words are there and its DG is near.
fn column_near(
    image: &[u8],
    photos: bool,
    table: &[u8],
    size: u64,
    columns: &[u64],
    memo: &[u64],
    n: u64,
    k: u64,
) -> PlacedColumn
    requires { (n ≤ 512) × (k < n) × (4096 ≤ length columns.now) × (8192 ≤ length memo.now)
        × (slice_index memo.now (placed_at + 3 * k) < 9223372036854775808) }
    ensures { Bounded result × (Near memo.now n
        → result ≡ column_of photos table.now image.now size columns.now memo.now n k) }
{
    let i = (8 * k) as usize;
    let j = (6656 + 3 * k) as usize;
    let channel = columns[i];
    let group = columns[i + 1];
    let records = columns[i + 3];
    let word = columns[i + 5];
    let master = master_place(memo, n, word);
    let dg = memo[j];
    let cn = dg + 64 + cg_bytes(word);
    let sd = sd_link(columns[i + 6], memo[j + 2]);
    let blocks = blocks_of(image, size, group, channel, records);
    let payload = payload_of(image, size, group, channel, records);
    let stored = stored_type(image, table, channel);
    let references = photos_of(photos, image, channel);
    PlacedColumn {
        channel,
        stored,
        group,
        parent: columns[i + 2],
        records,
        remote: word != 0,
        master,
        dg,
        cn,
        first: memo[j + 1],
        sd,
        blocks,
        photos: references,
        payload,
    }
}

// The same of any words; no column where they aren't there.
pub fn column_at(
    image: &[u8],
    photos: bool,
    table: &[u8],
    size: u64,
    columns: &[u64],
    memo: &[u64],
    n: u64,
    k: u64,
) -> PlacedColumn
    ensures { Bounded result × (Near memo.now n → k < n → 4096 ≤ length columns.now
        → result ≡ column_of photos table.now image.now size columns.now memo.now n k) }
{
    if n <= k || 512 < n || columns.len() < 4096 || memo.len() < 8192 {
        return no_column();
    }
    if 9223372036854775808 <= memo[(6656 + 3 * k) as usize] {
        return no_column();
    }
    column_near(image, photos, table, size, columns, memo, n, k)
}

// The same where they are.
pub(crate) fn column_of(
    image: &[u8],
    photos: bool,
    table: &[u8],
    size: u64,
    columns: &[u64],
    memo: &[u64],
    n: u64,
    k: u64,
) -> PlacedColumn
    requires { Near memo.now n × (k < n) × (4096 ≤ length columns.now) }
    ensures { (result ≡ column_of photos table.now image.now size columns.now memo.now n k) × (result.photos ≤ 65535) }
{
    column_at(image, photos, table, size, columns, memo, n, k)
}
