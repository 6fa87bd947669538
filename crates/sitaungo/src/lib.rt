// The conversion, in one go and in steps, its listing, the reader of column files, their inventory sheet and columns taken out of them, for programs
// that link these.
pub mod column_file;
pub mod eight_cells;
pub mod in_steps;
pub mod taking_out;

ghost use Rattle.std.specs.Prelude.{◌≡◌, length};
ghost use Rattle.plan.specs.Rules.{built_in};
ghost use Rattle.result.specs.Result as results;
ghost use Rattle.placing.specs.Decision.{untimed, four};
ghost use Rattle.writing.specs.Answer.{args, Bytes, Promised};
ghost use Rattle.listing.specs.Listed.{Listed};
ghost use Rattle.sitaungo.specs.Answer.{left, exported};
ghost use Rattle.sitaungo.specs.Readable.{Readable};

use choices::Choices;
use fields::refusal::Refusal;
use listing::recording::list;
use writing::convert::{Report, convert};

// Whether the recording was accepted; document 01's refusal with number and place where it was not, else 0; the report's seven counts where
// it was, else 0.
#[repr(C)]
#[derive(Default, Drop)]
pub struct Outcome {
    pub accepted: bool,
    pub number: u64,
    pub place: u64,
    pub source_groups: u64,
    pub time_groups: u64,
    pub signal_groups: u64,
    pub shared_time_groups: u64,
    pub data_blocks: u64,
    pub metadata_size: u64,
    pub file_size: u64,
}

impl From<Report> for Outcome {
    ghost use Rattle.base.specs.Checked.{ok};
    ghost use Rattle.writing.specs.Answer.{report_of};
    ghost use Rattle.sitaungo.specs.Answer.{numbers_of};

    ghost from_gives = { λ report outcome. outcome ≡ numbers_of (ok (report_of report)) };

    fn from(report: Report) -> Outcome {
        Outcome {
            accepted: true,
            source_groups: report.source_groups,
            time_groups: report.time_groups,
            signal_groups: report.signal_groups,
            shared_time_groups: report.shared_time_groups,
            data_blocks: report.data_blocks,
            metadata_size: report.metadata_size,
            file_size: report.file_size,
            ..Outcome::default()
        }
    }
}

impl From<Refusal> for Outcome {
    ghost use Rattle.base.specs.Checked.{refused};
    ghost use Rattle.fields.specs.Answer.{number_of, place_of};
    ghost use Rattle.sitaungo.specs.Answer.{numbers_of};

    ghost from_gives = { λ refusal outcome. outcome ≡ numbers_of (refused (number_of refusal) (place_of refusal)) };

    fn from(refusal: Refusal) -> Outcome {
        Outcome {
            number: refusal.number(),
            place: refusal.place(),
            ..Outcome::default()
        }
    }
}

impl From<Result<Report, Refusal>> for Outcome {
    ghost use Rattle.writing.specs.Answer.{answer_of};
    ghost use Rattle.sitaungo.specs.Answer.{numbers_of};

    ghost from_gives = { λ answer outcome. outcome ≡ numbers_of (answer_of answer) };

    fn from(answer: Result<Report, Refusal>) -> Outcome {
        match answer {
            Ok(report) => Outcome::from(report),
            Err(refusal) => Outcome::from(refusal),
        }
    }
}

// Every element of a slice is a byte.
fn are_bytes(s: &[u8])
    ensures { Bytes s.now }
{
    if 0 < s.len() {
        let _first = s[0];
    }
}

// What a call chooses: the unit, a power of two from 8 to 4096, on whose multiples each column's first data block and each SD start; whether one
// time column stands for all that equal it; whether references of channels to attachments are kept.
#[repr(C)]
#[derive(Drop)]
pub struct ColumnOptions {
    pub unit: u64,
    pub share: bool,
    pub photos: bool,
}

// By what is built in: unit 8.
const BUILT_IN: ColumnOptions = ColumnOptions {
    unit: 8,
    share: false,
    photos: false,
};

impl ColumnOptions {
    fn choices(self) -> Choices
        ensures { result ≡ record { unit = self.unit; share = self.share; photos = self.photos } }
    {
        Choices {
            unit: self.unit,
            share: self.share,
            photos: self.photos,
        }
    }
}

// One recording into one file, by what is chosen: `convert` of the crate writing. `types` is the table of treatments: no bytes, or a count n
// from 1 to 7, then n channel types, then n treatments: 0 keep, 1 omit, 2 store as type 0. Types that it doesn't list are treated as built in:
// 4 is omitted, 5 stored as type 0, any other kept.
#[unsafe(no_mangle)]
pub extern "C" fn sitaungo_convert_with(
    image: &[u8],
    size: u64,
    ident: &[u8],
    text: &[u8],
    time: u64,
    options: ColumnOptions,
    types: &[u8],
    source: &mut [u64],
    fragments: &mut [u64],
    columns: &mut [u64],
    copies: &mut [u64],
    out: &mut [u8],
    list: &mut [u64],
) -> Outcome
    ensures done { left result out.new list.new
        (four source.new fragments.new columns.new copies.new)
        ≡ exported (results.convert (args image.now size ident.now text.now time (record { unit = options.unit; table = types.now; share = options.share; photos = options.photos })) out.old list.old
        (four source.old fragments.old columns.old copies.old)) }
    ensures promised { Promised (args image.now size ident.now text.now time (record { unit = options.unit; table = types.now; share = options.share; photos = options.photos }))
        (length out.old) (length list.old)
        (four source.old fragments.old columns.old copies.old) out.new list.new }
    ensures readable { Readable (args image.now size ident.now text.now time (record { unit = options.unit; table = types.now; share = options.share; photos = options.photos }))
        (length out.old) (length list.old)
        (four source.old fragments.old columns.old copies.old) out.new }
{
    are_bytes(image);
    are_bytes(ident);
    Outcome::from(convert(
        image,
        size,
        ident,
        text,
        time,
        options.choices(),
        types,
        source,
        fragments,
        columns,
        copies,
        out,
        list,
    ))
}

// One recording into one file, by what is built in: unit 8, no table.
#[unsafe(no_mangle)]
pub extern "C" fn sitaungo_convert(
    image: &[u8],
    size: u64,
    ident: &[u8],
    text: &[u8],
    time: u64,
    source: &mut [u64],
    fragments: &mut [u64],
    columns: &mut [u64],
    copies: &mut [u64],
    out: &mut [u8],
    list: &mut [u64],
) -> Outcome
    ensures done { left result out.new list.new
        (four source.new fragments.new columns.new copies.new)
        ≡ exported (results.convert (args image.now size ident.now text.now time built_in) out.old list.old
        (four source.old fragments.old columns.old copies.old)) }
    ensures promised { Promised (args image.now size ident.now text.now time built_in)
        (length out.old) (length list.old)
        (four source.old fragments.old columns.old copies.old) out.new list.new }
    ensures readable { Readable (args image.now size ident.now text.now time built_in)
        (length out.old) (length list.old)
        (four source.old fragments.old columns.old copies.old) out.new }
{
    sitaungo_convert_with(
        image, size, ident, text, time, BUILT_IN, b"", source, fragments, columns, copies, out,
        list,
    )
}

// The listing of a recording's conversion, by what is chosen, with `types` as above, into an output of so many bytes and a list of so many words,
// and its length: `list` of the crate listing.
#[unsafe(no_mangle)]
pub extern "C" fn sitaungo_list_with(
    image: &[u8],
    size: u64,
    ident: &[u8],
    text: &[u8],
    options: ColumnOptions,
    types: &[u8],
    out: u64,
    list_words: u64,
    source: &mut [u64],
    fragments: &mut [u64],
    columns: &mut [u64],
    copies: &mut [u64],
    lines: &mut [u8],
) -> usize
    ensures { Listed (untimed image.now size ident.now text.now (record { unit = options.unit; table = types.now; share = options.share; photos = options.photos })) out list_words
        (four source.old fragments.old columns.old copies.old) lines.old
        result lines.new (four source.new fragments.new columns.new copies.new) }
{
    list(
        lines,
        image,
        size,
        ident,
        text,
        options.choices(),
        types,
        out,
        list_words,
        source,
        fragments,
        columns,
        copies,
    )
}

// The same by what is built in: unit 8, no table.
#[unsafe(no_mangle)]
pub extern "C" fn sitaungo_list(
    image: &[u8],
    size: u64,
    ident: &[u8],
    text: &[u8],
    out: u64,
    list_words: u64,
    source: &mut [u64],
    fragments: &mut [u64],
    columns: &mut [u64],
    copies: &mut [u64],
    lines: &mut [u8],
) -> usize
    ensures { Listed (untimed image.now size ident.now text.now built_in) out list_words
        (four source.old fragments.old columns.old copies.old) lines.old
        result lines.new (four source.new fragments.new columns.new copies.new) }
{
    sitaungo_list_with(
        image, size, ident, text, BUILT_IN, b"", out, list_words, source, fragments, columns,
        copies, lines,
    )
}
