// A column file is opened: identification, walk, ranges, form.
ghost use Rattle.std.specs.Prelude.{◌≡◌, ◌≤◌, ◌<◌, length};
ghost use Rattle.fields.specs.Answer.{verdict_of};
ghost use Rattle.file.specs.Opened.{opened};
ghost use Rattle.ranges.specs.Open.{item_range, word_ranges, column_formed, form_from, few, lasting, opened_as, opening};

use crate::form::is_formed;
use crate::range::chain_ranges;
use blocks::block::link_at;
use fields::refusal::Refusal;
use identification::identify;
use reading::recording::walk_file;

// The ranges of a DG's chain, by the block's mark.
fn item_range(image: &[u8], a: u64, mark: u64) -> Result<(), Refusal>
    ensures { verdict_of result ≡ item_range image.now a mark }
{
    if mark < 2 {
        return Ok(());
    }
    chain_ranges(image, link_at(image, a, 2))
}

// Of all DG, in the order of the walk.
fn word_ranges(image: &[u8], source: &[u64; 4096], n: u64) -> Result<(), Refusal>
    requires { n ≤ 1536 }
    ensures { verdict_of result ≡ word_ranges image.now source.now n 0 }
{
    for k in 0..n as usize {
        item_range(image, source[k], source[1536 + k])?;
    }
    Ok(())
}

// Column j: a DG, a CG and a CN, in the form.
fn column_formed(image: &[u8], source: &[u64; 4096], j: u64) -> bool
    requires { j < 512 }
    ensures { result ≡ column_formed image.now source.now j }
{
    let k = 3 * j as usize;
    let mark = 1536 + k;
    if source[mark] < 2 || source[mark + 1] != 1 || source[mark + 2] != 0 {
        return false;
    }
    is_formed(image, source[k], source[k + 1])
}

// The columns of n blocks, how many there are.
fn form_of(image: &[u8], source: &[u64; 4096], n: u64) -> Result<u64, Refusal>
    requires { n ≤ 1536 }
    ensures { (opened_as image.now source.now result ≡ form_from image.now source.now n 0) × few result }
{
    for j in 0..n / 3 {
        if !column_formed(image, source, j) {
            return Err(Refusal::OtherForm);
        }
    }
    if n % 3 != 0 {
        return Err(Refusal::OtherForm);
    }
    Ok(n / 3)
}

// How many columns the file has: DG, CG and CN of column k stand at words 3k, 3k + 1 and 3k + 2.
pub fn open_file(image: &[u8], source: &mut [u64; 4096]) -> Result<u64, Refusal>
    ensures { (length source.old ≡ 4096 → opened_as image.now source.new result ≡ opened image.now) × few result
        × (length source.old ≡ 4096 → lasting result source.new) }
{
    identify(image)?;
    let found = walk_file(image, source)?;
    word_ranges(image, source, found.items)?;
    form_of(image, source, found.items)
}

// The same, and the number of columns stands at the last word.
pub(crate) fn open_columns(image: &[u8], source: &mut [u64; 4096]) -> Result<(), Refusal>
    ensures { length source.old ≡ 4096 → opening image.now source.new result }
{
    let count = open_file(image, source)?;
    source[4095] = count;
    Ok(())
}
