// The list of columns that are taken out (33, 34), by a mark for each.
ghost use Rattle.std.specs.Prelude.{List, false, ◌≡◌, ℕ, ◌≤◌, ◌<◌, replicate};
ghost use Rattle.fields.specs.Answer.{verdict_of};
ghost use Rattle.sheet.specs.Sheet.{master_of};
ghost use Rattle.thin.specs.Kept.{is_taken, masters_kept};
ghost use Rattle.taking.specs.Opened.{column_in, columns_in};
ghost use Rattle.taking.specs.Marks.{Marked, Marks, master_at};

use crate::opened::File;
use fields::refusal::Refusal;
use sheets::line::master_of;

// 33 when a number repeats or is none of n columns; else the columns are marked. The list is gone through from its end.
pub(crate) fn mark(numbers: &[u64], n: u64, marks: &mut [bool; 512]) -> Result<(), Refusal>
    requires { (n ≤ 512) × (marks.old ≡ replicate 512 false) }
    ensures { Marks n numbers.now result marks.new }
{
    for i in (0..numbers.len()).rev() {
        let k = numbers[i];
        if n <= k || marks[k as usize] {
            return Err(Refusal::NotTakenOut);
        }
        marks[k as usize] = true;
    }
    Ok(())
}

// The master of column k is taken out.
fn is_taken(file: &File, marks: &[bool; 512], k: u64) -> bool
    requires { k < file.now.count }
    ensures { (ns : List ℕ) → Marked ns marks.now → result
        ≡ is_taken (master_of file.now.image.now (columns_in file.now) (column_in file.now k).cg) ns }
{
    match master_of(file.image, file.source, file.count, file.group(k)) {
        Some(number) => marks[number as usize],
        None => false,
    }
}

// 34 where column k is kept and names one that is taken out.
fn master_kept(file: &File, marks: &[bool; 512], k: u64) -> Result<(), Refusal>
    requires { k < file.now.count }
    ensures { (ns : List ℕ) → Marked ns marks.now → verdict_of result
        ≡ master_at file.now.image.now file.now.source.now (columns_in file.now) ns k }
{
    if !marks[k as usize] && is_taken(file, marks, k) {
        return Err(Refusal::StillNamed);
    }
    Ok(())
}

// Of all columns, one after the other.
pub(crate) fn masters_kept(file: &File, marks: &[bool; 512]) -> Result<(), Refusal>
    ensures { (ns : List ℕ) → Marked ns marks.now → verdict_of result
        ≡ masters_kept file.now.image.now ns (columns_in file.now) 0 (columns_in file.now) }
{
    for k in 0..file.count {
        master_kept(file, marks, k)?;
    }
    Ok(())
}
