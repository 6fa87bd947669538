// Records and the inventory sheet of a column file, for programs that link the reader.
ghost use Rattle.std.specs.Prelude.{◌≡◌};
ghost use Rattle.file.specs.Plot.{plotted};
ghost use Rattle.file.specs.Range.{read_into, located};
ghost use Rattle.ranges.specs.Turn.{entries_of, laid, answered};
ghost use Rattle.sheet.specs.Sheet.{sheet};
ghost use Rattle.texts.specs.Laid.{Laid};
ghost use Rattle.sitaungo.specs.ColumnFile.{filled, exported_read, exported_part};

use fields::refusal::Refusal;
use ranges::plot::{Plotting, Request, plot};
use ranges::read::{Location, locate, read_range};
use sheets::column_file::sheet;

// Whether the range was read; a refusal's number and place where it was not, else 0.
#[repr(C)]
#[derive(Default, Drop)]
pub struct Read {
    pub accepted: bool,
    pub number: u64,
    pub place: u64,
}

// Offset and length of a part, or split, or a refusal's number and place; what says nothing is 0.
#[repr(C)]
#[derive(Default, Drop)]
pub struct Part {
    pub accepted: bool,
    pub split: bool,
    pub number: u64,
    pub place: u64,
    pub offset: u64,
    pub length: u64,
}

impl From<Result<(), Refusal>> for Read {
    ghost use Rattle.fields.specs.Answer.{verdict_of};
    ghost use Rattle.sitaungo.specs.ColumnFile.{read_numbers};

    ghost from_gives = { λ answer read. read ≡ read_numbers (verdict_of answer) };

    fn from(answer: Result<(), Refusal>) -> Read {
        match answer {
            Ok(()) => Read {
                accepted: true,
                ..Read::default()
            },
            Err(refusal) => Read {
                number: refusal.number(),
                place: refusal.place(),
                ..Read::default()
            },
        }
    }
}

impl From<Result<Location, Refusal>> for Part {
    ghost use Rattle.ranges.specs.Read.{located_as};
    ghost use Rattle.sitaungo.specs.ColumnFile.{exported_part};

    ghost from_gives = { λ answer part. part ≡ exported_part (located_as answer) };

    fn from(answer: Result<Location, Refusal>) -> Part {
        match answer {
            Ok(Location::Split) => Part {
                accepted: true,
                split: true,
                ..Part::default()
            },
            Ok(Location::At { offset, length }) => Part {
                accepted: true,
                offset,
                length,
                ..Part::default()
            },
            Err(why) => Part {
                number: why.number(),
                place: why.place(),
                ..Part::default()
            },
        }
    }
}

// Count records of a column, beginning at a given one, are copied into the buffer: `read_range` of the crate ranges.
#[unsafe(no_mangle)]
pub extern "C" fn sitaungo_read_range(
    image: &[u8],
    column: u64,
    first: u64,
    count: u64,
    buffer: &mut [u8],
) -> Read
    ensures { filled result buffer.new ≡ exported_read (read_into image.now column first count buffer.old) }
{
    read_range(image, column, first, count, buffer).into()
}

// Where these records lie in the file, if in one block: `locate` of the crate ranges.
#[unsafe(no_mangle)]
pub extern "C" fn sitaungo_range_part(image: &[u8], column: u64, first: u64, count: u64) -> Part
    ensures { result ≡ exported_part (located image.now column first count) }
{
    locate(image, column, first, count).into()
}

// Many ranges fetched in one call: `plot` of the crate ranges.
#[unsafe(no_mangle)]
pub extern "C" fn sitaungo_plot(image: &[u8], table: &[Request], destination: &mut [u8]) -> Plotting
    ensures { laid result destination.new
        ≡ answered (plotted image.now (entries_of table.now) destination.old) }
{
    plot(image, table, destination)
}

// The inventory sheet of a column file and its length: `sheet` of the crate sheets.
#[unsafe(no_mangle)]
pub extern "C" fn sitaungo_sheet(image: &[u8], lines: &mut [u8]) -> usize
    ensures { Laid 0 (sheet image.now) 42201 lines.old lines.new result }
{
    sheet(lines, image)
}
