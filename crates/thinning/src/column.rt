// A kept column, from the words of what was decided.
ghost use Rattle.std.specs.Prelude.{◌≡◌, ◌+◌, ◌≤◌, ◌<◌, length};
ghost use Rattle.base.specs.Choice.{if_eq};
ghost use Rattle.plan.specs.Photos.{photo_count};
ghost use Rattle.thinning.specs.Column.{master_place, next_place, Near, column_by, Bounded};

use crate::decided::Decided;
use arranging::sizes::{blocks_of, cg_bytes};
use blocks::block::{data_field, link_at};

// Its CN, CG and DG in the image; whether it has a master and that one's new CG; the places of its DG, CN, first data block and SD, 0 without signal
// data; the number of its data blocks, of its references to attachments, and the length in its DL.
#[derive(Clone, Copy)]
pub struct KeptColumn {
    pub channel: u64,
    pub group: u64,
    pub parent: u64,
    pub remote: bool,
    pub master: u64,
    pub dg: u64,
    pub cn: u64,
    pub first: u64,
    pub sd: u64,
    pub blocks: u64,
    pub photos: u64,
    pub payload: u64,
}

// a where the word is 0, else b.
fn by_word(word: u64, a: u64, b: u64) -> u64
    ensures { result ≡ if_eq word 0 a b }
{
    if word == 0 { a } else { b }
}

// The master's CG, by its word, of n columns.
fn master_place(memo: &[u64], n: u64, word: u64) -> u64
    requires { Near memo.now n }
    ensures { result ≡ master_place memo.now n word }
{
    if word == 0 {
        return 0;
    }
    let m = word - 1;
    if n <= m {
        return 0;
    }
    memo[(6656 + 3 * m) as usize] + 64
}

// The DG of the column after number k, 0 for the last.
pub(crate) fn next_place(file: &Decided, k: u64) -> u64
    requires { Near file.now.memo.now file.now.numbers.columns × (k < file.now.numbers.columns) }
    ensures { result ≡ next_place file.now.memo.now file.now.numbers.columns k }
{
    if file.numbers.columns <= k + 1 {
        0
    } else {
        file.memo[(6656 + 3 * (k + 1)) as usize]
    }
}

// The references to attachments of the CN at c.
fn photos_of(image: &[u8], c: u64) -> u64
    ensures { (result ≡ photo_count image.now c) × (result ≤ 65535) }
{
    data_field::<2>(image, c, 22)
}

// Column number k.
pub(crate) fn column_of(file: &Decided, k: u64) -> KeptColumn
    requires { Near file.now.memo.now file.now.numbers.columns × (k < file.now.numbers.columns) × (4096 ≤ length file.now.columns.now) }
    ensures { (result ≡ column_by file.now.image.now file.now.columns.now file.now.memo.now file.now.numbers.columns k) × Bounded result }
{
    let i = (8 * k) as usize;
    let j = (6656 + 3 * k) as usize;
    let channel = file.columns[i];
    let parent = file.columns[i + 2];
    let word = file.columns[i + 5];
    let dg = file.memo[j];
    let master = master_place(file.memo, file.numbers.columns, word);
    let cn = dg + 64 + cg_bytes(word);
    let sd = by_word(file.columns[i + 6], 0, file.memo[j + 2]);
    let blocks = blocks_of(file.image, parent);
    let photos = photos_of(file.image, channel);
    let payload = data_field::<8>(file.image, link_at(file.image, parent, 2), 8);
    KeptColumn {
        channel,
        group: file.columns[i + 1],
        parent,
        remote: word != 0,
        master,
        dg,
        cn,
        first: file.memo[j + 1],
        sd,
        blocks,
        photos,
        payload,
    }
}
