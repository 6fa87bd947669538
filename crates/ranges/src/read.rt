// The two calls: records copied into a buffer, or handed back as a part of the file's own bytes.
ghost use Rattle.std.specs.Prelude.{◌≡◌, eqb, ◌*◌, length};
ghost use Rattle.base.specs.Blit.{part};
ghost use Rattle.mdf.specs.Block.{link_at};
ghost use Rattle.mdf.specs.Records.{joined};
ghost use Rattle.file.specs.Range.{asked, read_into, within, located, handed};
ghost use Rattle.ranges.specs.Blocks.{blocks_of};
ghost use Rattle.ranges.specs.Open.{Holds};
ghost use Rattle.ranges.specs.Read.{asked_as, copied_as, Fills, located_as, PlaceAs, handing};

use crate::block::{bytes_at, links_of};
use crate::form::{cycles_of, record_bytes};
use crate::open::open_columns;
use crate::seek::{copy_from, seek};
use blocks::block::link_at;
use fields::refusal::Refusal;

// The column asked for.
#[derive(Clone, Copy)]
pub struct Granted {
    pub dg: u64,
    pub cg: u64,
    pub cn: u64,
}

// 22 and 23, of a file whose columns stand in the words.
pub(crate) fn ask_opened(
    image: &[u8],
    source: &[u64; 4096],
    column: u64,
    first: u64,
    count: u64,
) -> Result<Granted, Refusal>
    requires { Holds image.now source.now }
    ensures { asked_as image.now result ≡ asked image.now column first count }
{
    if source[4095] <= column {
        return Err(Refusal::NoSuchColumn);
    }
    let k = 3 * column as usize;
    let granted = Granted {
        dg: source[k],
        cg: source[k + 1],
        cn: source[k + 2],
    };
    let all = cycles_of(image, granted.cg);
    if all < first || all - first < count {
        return Err(Refusal::NoSuchRecords);
    }
    Ok(granted)
}

// 24 for the image, 22, 23.
pub fn ask(image: &[u8], column: u64, first: u64, count: u64) -> Result<Granted, Refusal>
    ensures { asked_as image.now result ≡ asked image.now column first count }
{
    let mut source = [0u64; 4096];
    open_columns(image, &mut source)?;
    ask_opened(image, &source, column, first, count)
}

// Whether n bytes are so many records of w bytes.
fn fits(n: u64, count: u64, w: u64) -> bool
    ensures { result ≡ eqb n (count * w) }
{
    if w == 0 {
        return n == 0;
    }
    n % w == 0 && n / w == count
}

// The buffer is filled from the first byte of a record on.
pub(crate) fn fill(image: &[u8], d: u64, first: u64, w: u64, buffer: &mut [u8])
    requires { Fills image.now d first w (length buffer.old) }
    ensures { buffer.new ≡ part (first * w) (length buffer.old)
        (joined image.now (blocks_of image.now (link_at image.now d 2))) }
{
    let a = link_at(image, d, 2);
    let links = links_of(image, a);
    copy_from(image, a, links, seek(image, a, links, first, w), buffer)
}

// Count records of a column, beginning at a given one, are copied into the buffer.
pub fn read_range(
    image: &[u8],
    column: u64,
    first: u64,
    count: u64,
    buffer: &mut [u8],
) -> Result<(), Refusal>
    ensures { copied_as result buffer.new ≡ read_into image.now column first count buffer.old }
{
    let granted = ask(image, column, first, count)?;
    let w = record_bytes(image, granted.cg);
    if !fits(buffer.len() as u64, count, w) {
        return Err(Refusal::OtherForm);
    }
    if !buffer.is_empty() {
        fill(image, granted.dg, first, w, buffer);
    }
    Ok(())
}

// Split, or offset and length in the image.
#[derive(Clone, Copy)]
pub enum Location {
    Split,
    At { offset: u64, length: u64 },
}

// Count records from a given one on, some, inside one block.
fn within_block(image: &[u8], d: u64, first: u64, count: u64, w: u64) -> Location
    requires { Fills image.now d first w (count * w) }
    ensures { PlaceAs result (within (blocks_of image.now (link_at image.now d 2)) (first * w) (count * w)) }
{
    let a = link_at(image, d, 2);
    let links = links_of(image, a);
    let spot = seek(image, a, links, first, w);
    let x = link_at(image, a, spot.link);
    let left = bytes_at(image, x) - spot.place;
    if left / w < count {
        return Location::Split;
    }
    Location::At {
        offset: x + 24 + spot.place,
        length: count * w,
    }
}

// Where the records of a range lie, as a part of the file's own bytes.
pub fn locate(image: &[u8], column: u64, first: u64, count: u64) -> Result<Location, Refusal>
    ensures { located_as result ≡ located image.now column first count }
{
    let granted = ask(image, column, first, count)?;
    let w = record_bytes(image, granted.cg);
    if count == 0 || w == 0 {
        return Ok(Location::At {
            offset: 0,
            length: 0,
        });
    }
    Ok(within_block(image, granted.dg, first, count, w))
}

// n bytes of s from index a on, as many as there are.
fn part_of(s: &[u8], a: u64, n: u64) -> &[u8]
    ensures { result.now ≡ part a n s.now }
{
    let all = s.len() as u64;
    let from = a.min(all);
    let to = from + n.min(all - from);
    &s[from as usize..to as usize]
}

// The same range handed back: the words are 0, offset and length; 1, 0, 0 for split; or 2, a refusal's number and place. The definition gives words.
pub fn range_part<'a>(
    image: &'a [u8],
    column: u64,
    first: u64,
    count: u64,
    answer: &mut [u64; 3],
) -> &'a [u8]
    ensures { handing answer.new result.now ≡ handed image.now (located image.now column first count) }
{
    match locate(image, column, first, count) {
        Err(refusal) => {
            *answer = [2, refusal.number(), refusal.place()];
            &image[..0]
        }
        Ok(Location::Split) => {
            *answer = [1, 0, 0];
            &image[..0]
        }
        Ok(Location::At { offset, length }) => {
            *answer = [0, offset, length];
            part_of(image, offset, length)
        }
    }
}
