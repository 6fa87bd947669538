// A conversion up to where it would write.
ghost use Rattle.std.specs.Prelude.{◌≡◌, ℕ, ◌+◌, ◌*◌, ◌≤◌};
ghost use Rattle.choices.specs.Chosen.{rules};
ghost use Rattle.fields.specs.Answer.{verdict_of};
ghost use Rattle.writing.specs.Answer.{args};
ghost use Rattle.writing.specs.Beginning.{room_in, Begins};

use crate::convert::{Report, count_up};
use choices::Choices;
use fields::refusal::Refusal;
use placing::decide::{clear_all, decide};
use placing::layout::Numbers;

// The blocks met, the fragments of data chains, columns and omissions, the layout's numbers and the report.
#[derive(Clone, Copy)]
pub struct Beginning {
    pub items: u64,
    pub fragments: u64,
    pub columns: u64,
    pub omissions: u64,
    pub numbers: Numbers,
    pub report: Report,
}

// 20, 21: an output of so many bytes and a list of so many words have room for a file and its omissions.
pub(crate) fn room_in(out: u64, list: u64, bytes: u64, omitted: u64) -> Result<(), Refusal>
    requires { omitted ≤ 1024 }
    ensures { verdict_of result ≡ room_in out list bytes (2 * omitted + 1) }
{
    let words = 2 * omitted + 1;
    if out < bytes {
        return Err(Refusal::OutputTooShort(bytes));
    }
    if list < words {
        return Err(Refusal::ListTooShort(words));
    }
    Ok(())
}

// All that `convert` does before it writes, for an output of so many bytes and a list of so many words. What was decided stays in the words.
pub fn begin(
    image: &[u8],
    size: u64,
    ident: &[u8],
    text: &[u8],
    choices: Choices,
    table: &[u8],
    out: u64,
    list: u64,
    source: &mut [u64],
    fragments: &mut [u64],
    columns: &mut [u64],
    copies: &mut [u64],
) -> Result<Beginning, Refusal>
    ensures { (time : ℕ) → Begins (args image.now size ident.now text.now time (rules choices table.now)) out list
        source.old fragments.old columns.old copies.old result
        source.new fragments.new columns.new copies.new }
{
    let found = decide(
        image, size, ident, text, choices, table, source, fragments, columns, copies,
    )?;
    let room = room_in(out, list, found.numbers.file_size, found.omissions);
    if let Err(refusal) = room {
        clear_all(source, fragments, columns, copies);
        return Err(refusal);
    }
    let report = count_up(image, size, source, columns, found);
    Ok(Beginning {
        items: found.items,
        fragments: found.fragments,
        columns: found.columns,
        omissions: found.omissions,
        numbers: found.numbers,
        report,
    })
}
