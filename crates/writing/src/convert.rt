// The conversion.
ghost use Rattle.std.specs.Prelude.{◌≡◌, length};
ghost use Rattle.result.specs.Result as results;
ghost use Rattle.choices.specs.Chosen.{rules};
ghost use Rattle.placing.specs.Decision.{four, Shares};
ghost use Rattle.writing.specs.Answer.{args, args_of, left, Bytes, Promised};
ghost use Rattle.writing.specs.Finish.{Stands, Counts, Reported, Finished};

use crate::begin::room_in;
use crate::counts::{blocks_written, source_groups, time_columns};
use crate::file::write_file;
use crate::omissions::write_list;
use choices::Choices;
use fields::refusal::Refusal;
use placing::decide::{Decision, clear_all, decide};

// The seven counts of a conversion's report.
#[derive(Clone, Copy, Debug, PartialEq, Eq)]
pub struct Report {
    pub source_groups: u64,
    pub time_groups: u64,
    pub signal_groups: u64,
    pub shared_time_groups: u64,
    pub data_blocks: u64,
    pub metadata_size: u64,
    pub file_size: u64,
}

// The arguments of a call but the lent slices.
#[derive(Clone, Copy)]
pub(crate) struct Call<'a> {
    pub(crate) image: &'a [u8],
    pub(crate) size: u64,
    pub(crate) ident: &'a [u8],
    pub(crate) text: &'a [u8],
    pub(crate) time: u64,
    pub(crate) choices: Choices,
    pub(crate) table: &'a [u8],
}

// Every element of the image is a byte.
fn are_bytes(image: &[u8])
    ensures { Bytes image.now }
{
    if 0 < image.len() {
        let _first = image[0];
    }
}

// The counts of what was decided.
pub(crate) fn count_up(
    image: &[u8],
    size: u64,
    source: &[u64],
    columns: &[u64],
    found: Decision,
) -> Report
    requires { Counts image.now size columns.now found.items found.columns }
    ensures { Reported image.now size source.now columns.now found.items found.columns found.shared
        found.numbers.metadata_end found.numbers.file_size result }
{
    let times = time_columns(columns, found.columns);
    Report {
        source_groups: source_groups(image, source, found.items),
        time_groups: times,
        signal_groups: found.columns - times,
        shared_time_groups: found.shared,
        data_blocks: blocks_written(image, size, columns, found.columns),
        metadata_size: found.numbers.metadata_end,
        file_size: found.numbers.file_size,
    }
}

// 20, 21; the file, the list, the report. The words of fragments are free afterwards.
fn finish(
    out: &mut [u8],
    list: &mut [u64],
    call: Call,
    source: &[u64],
    fragments: &mut [u64],
    columns: &[u64],
    copies: &[u64],
    found: Decision,
) -> Result<Report, Refusal>
    requires { Stands (args_of call) found.items found.fragments found.columns found.omissions found.numbers
        source.now fragments.old columns.now copies.now × Shares (results.decided (args_of call)) found.shared }
    ensures { Finished (args_of call.entry) out.old list.old result out.new list.new }
{
    let room = out.len() as u64;
    let words = list.len() as u64;
    room_in(room, words, found.numbers.file_size, found.omissions)?;
    write_file(out, call, source, fragments, columns, copies, found);
    write_list(list, columns, found.omissions as usize);
    Ok(count_up(call.image, call.size, source, columns, found))
}

// One recording into one file: 1, 2, the choices, 3, what reading, planning and layout refuse, 20, 21; then the file, the list and the report.
pub fn convert(
    image: &[u8],
    size: u64,
    ident: &[u8],
    text: &[u8],
    time: u64,
    choices: Choices,
    table: &[u8],
    source: &mut [u64],
    fragments: &mut [u64],
    columns: &mut [u64],
    copies: &mut [u64],
    out: &mut [u8],
    list: &mut [u64],
) -> Result<Report, Refusal>
    ensures done { left result out.new list.new
        (four source.new fragments.new columns.new copies.new)
        ≡ results.convert (args image.now size ident.now text.now time (rules choices table.now)) out.old list.old
        (four source.old fragments.old columns.old copies.old) }
    ensures promised { Promised (args image.now size ident.now text.now time (rules choices table.now))
        (length out.old) (length list.old)
        (four source.old fragments.old columns.old copies.old) out.new list.new }
{
    are_bytes(image);
    let found = decide(
        image, size, ident, text, choices, table, source, fragments, columns, copies,
    )?;
    let call = Call {
        image,
        size,
        ident,
        text,
        time,
        choices,
        table,
    };
    let answer = finish(out, list, call, source, fragments, columns, copies, found);
    clear_all(source, fragments, columns, copies);
    answer
}
