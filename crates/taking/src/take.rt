// A file's columns, opened, tested and taken out: what is refused, in the order of document 02, or the kept columns in words.
ghost use Rattle.std.specs.Prelude.{List, ℕ, ◌<◌};
ghost use Rattle.thin.specs.Kept.{kept_columns};
ghost use Rattle.taking.specs.Opened.{column_in, columns_in};
ghost use Rattle.taking.specs.Marks.{Marked};
ghost use Rattle.taking.specs.Words.{SoundSignal};
ghost use Rattle.taking.specs.Takes.{photos_taken, taken_from, TakesAs, Takes};

use crate::kept::{photos_kept, put_kept};
use crate::list::{mark, masters_kept};
use crate::opened::File;
use crate::sound::columns_sound;
use fields::refusal::Refusal;
use photos::photos_first;
use ranges::open::open_file;

// The photo choice's refusals, then the words of the kept columns.
fn take_marked(
    file: &File,
    marks: &[bool; 512],
    fragments: &mut [u64],
    columns: &mut [u64],
) -> Result<u64, Refusal>
    requires { (k : ℕ) → k < file.now.count → SoundSignal file.now.image.now (column_in file.now k).cn }
    ensures { (ns : List ℕ) → Marked ns marks.now → TakesAs
        (photos_taken file.now.image.now (kept_columns file.now.image.now ns (columns_in file.now)))
        (kept_columns file.now.image.now ns (columns_in file.now)) result
        fragments.old fragments.new columns.old columns.new }
{
    photos_first(true, file.image)?;
    photos_kept(file, marks)?;
    Ok(put_kept(file, marks, fragments, columns))
}

// 24 of every column, 33, 34, then the photo choice's.
fn take_opened(
    file: &File,
    numbers: &[u64],
    fragments: &mut [u64],
    columns: &mut [u64],
) -> Result<u64, Refusal>
    ensures { TakesAs
        (taken_from file.now.image.now numbers.now (columns_in file.now))
        (kept_columns file.now.image.now numbers.now (columns_in file.now)) result
        fragments.old fragments.new columns.old columns.new }
{
    columns_sound(file)?;
    let mut marks = [false; 512];
    mark(numbers, file.count, &mut marks)?;
    masters_kept(file, &marks)?;
    take_marked(file, &marks, fragments, columns)
}

// A file, and the numbers of the columns that are taken out; answers how many columns are kept. What has no room in the words is lost.
pub fn take_out(
    image: &[u8],
    numbers: &[u64],
    fragments: &mut [u64],
    columns: &mut [u64],
) -> Result<u64, Refusal>
    ensures { Takes image.now numbers.now result
        fragments.old fragments.new columns.old columns.new }
{
    let mut source = [0u64; 4096];
    let count = open_file(image, &mut source)?;
    let file = File {
        image,
        source: &source,
        count,
    };
    take_opened(&file, numbers, fragments, columns)
}
