// What was decided of a file before anything is written.
use arranging::decide::Numbers;

// The words of the kept columns, eight a column, those of copies and places, and the layout's numbers.
#[derive(Drop)]
pub(crate) struct Decided<'a> {
    pub image: &'a [u8],
    pub columns: &'a [u64],
    pub memo: &'a [u64],
    pub numbers: Numbers,
}
