// What is decided before anything is written: which columns are kept, and the layout.
ghost use Rattle.std.specs.Prelude.{◌≤◌, length};
ghost use Rattle.arranging.specs.Answered.{Arranges, ArrangesRest};

use crate::kept::Kept;
use crate::layout::lay_out;
use choices::is_unit;
use fields::refusal::Refusal;
use reading::recording::clear;
use taking::take::take_out;

// What is known of a layout besides its words: how many columns there are, how many copies after the history chain, the blocks of that chain, how
// many copies after the columns' metadata and in all, the attachments, the ends of metadata and file.
#[derive(Clone, Copy)]
pub struct Numbers {
    pub columns: u64,
    pub history: u64,
    pub chain: u64,
    pub metadata: u64,
    pub copies: u64,
    pub attachments: u64,
    pub metadata_end: u64,
    pub file_size: u64,
}

// 26, 3, then the kept columns and their layout.
fn arrange_rest(
    image: &[u8],
    unit: u64,
    numbers: &[u64],
    out: u64,
    fragments: &mut [u64],
    columns: &mut [u64],
    memo: &mut [u64],
) -> Result<Numbers, Refusal>
    requires { (8192 ≤ length fragments.old) × (8192 ≤ length columns.old) × (8192 ≤ length memo.old) }
    ensures { ArrangesRest unit image.now numbers.now out
        fragments.old columns.old memo.old result
        fragments.new columns.new memo.new }
{
    if !is_unit(unit) {
        return Err(Refusal::Unit);
    }
    if 140737488355328 < (image.len() as u64) {
        return Err(Refusal::ImageSize);
    }
    let count = take_out(image, numbers, fragments, columns)?;
    let file = Kept {
        image,
        columns,
        count,
        unit,
    };
    lay_out(&file, memo, out)
}

// A file is decided into four lent slices of 8,192 words, for a unit, the numbers of the columns that are taken out and an output of so many
// bytes: the signal data's fragments, the kept columns, copies and places; the first slice is left as it is.
pub fn arrange(
    image: &[u8],
    unit: u64,
    numbers: &[u64],
    out: u64,
    source: &mut [u64],
    fragments: &mut [u64],
    columns: &mut [u64],
    memo: &mut [u64],
) -> Result<Numbers, Refusal>
    ensures { Arranges unit image.now numbers.now out
        source.old fragments.old columns.old memo.old result
        source.new fragments.new columns.new memo.new }
{
    if source.len() < 8192 || fragments.len() < 8192 || columns.len() < 8192 || memo.len() < 8192 {
        return Err(Refusal::Arguments);
    }
    let arranged = arrange_rest(image, unit, numbers, out, fragments, columns, memo);
    if let Err(refusal) = arranged {
        clear(source);
        clear(fragments);
        clear(columns);
        clear(memo);
        return Err(refusal);
    }
    arranged
}
