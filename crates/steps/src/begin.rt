// A conversion begun: nothing is stored.
ghost use Rattle.std.specs.Prelude.{◌≡◌};
ghost use Rattle.choices.specs.Chosen.{rules};
ghost use Rattle.stores.specs.Stores.{steps_of};
ghost use Rattle.writing.specs.Answer.{args};
ghost use Rattle.steps.specs.Steps.{Starts};
ghost use Rattle.steps.specs.Conversion.{begun_as};

use crate::conversion::Conversion;
use choices::Choices;
use fields::refusal::Refusal;
use reading::recording::clear;
use writing::begin::Beginning;
use writing::convert::Report;

// The state before the first store, and the report.
#[derive(Clone, Copy)]
pub struct Started {
    pub conversion: Conversion,
    pub report: Report,
}

// How many steps a file of so many bytes takes: the first, one a page, the last.
pub fn steps_of(size: u64) -> u64
    ensures { result ≡ steps_of size }
{
    size.div_ceil(4096) + 2
}

// What was decided, as the state before the first store.
fn begun(size: u64, time: u64, choices: Choices, decided: Beginning) -> Conversion
    ensures { result ≡ begun_as size time choices decided.items decided.fragments decided.columns
        decided.omissions decided.numbers }
{
    let n = decided.numbers;
    Conversion {
        block_size: size,
        time,
        unit: choices.unit,
        share: choices.share,
        photos: choices.photos,
        items: decided.items,
        pieces: decided.fragments,
        columns: decided.columns,
        omissions: decided.omissions,
        history: n.history,
        chain: n.chain,
        md: n.md,
        fh: n.fh,
        metadata: n.metadata,
        copies: n.copies,
        attachments: n.attachments,
        metadata_end: n.metadata_end,
        file_size: n.file_size,
        steps: steps_of(n.file_size),
        next: 0,
        count: 0,
        name_a: 0,
        name_b: 0,
        name_c: 0,
        name_d: 0,
        place_a: 0,
        place_b: 0,
        place_c: 0,
        place_d: 0,
    }
}

// Everything up to the first store, for a file of so many bytes and a list of so many words: refused as the conversion in one go. What was decided
// stays in the first four slices of words; the other two, of any length, keep places of records from step to step.
pub fn begin(
    image: &[u8],
    size: u64,
    ident: &[u8],
    text: &[u8],
    time: u64,
    choices: Choices,
    table: &[u8],
    out: u64,
    list: u64,
    source: &mut [u64],
    fragments: &mut [u64],
    columns: &mut [u64],
    copies: &mut [u64],
    stretches: &mut [u64],
    offsets: &mut [u64],
) -> Result<Started, Refusal>
    ensures { Starts (args image.now size ident.now text.now time (rules choices table.now)) out list
        source.old fragments.old columns.old copies.old stretches.old offsets.old result
        source.new fragments.new columns.new copies.new stretches.new offsets.new }
{
    clear(stretches);
    clear(offsets);
    let decided = writing::begin::begin(
        image, size, ident, text, choices, table, out, list, source, fragments, columns, copies,
    )?;
    Ok(Started {
        conversion: begun(size, time, choices, decided),
        report: decided.report,
    })
}
