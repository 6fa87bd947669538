// A block's header, links and data, and the checks that every block passes.
ghost use Rattle.std.specs.Prelude.{◌≡◌, ◌+◌, min};
ghost use Rattle.base.specs.Field.{Field};
ghost use Rattle.fields.specs.Answer.{verdict_of};
ghost use Rattle.blocks.specs.Data.{Begins};
ghost use Rattle.mdf.specs.Block.{kind_at, size_at, links_at, link_at, first_link, data_at, header_in, length_in, whole_at, wanted_at, block_at};

use fields::field_at;
use fields::refusal::Refusal;

pub const HD: u64 = 1145578275;

pub const DG: u64 = 1195647779;

pub const CG: u64 = 1195582243;

pub const CN: u64 = 1313022755;

pub const DT: u64 = 1413751587;

pub const DV: u64 = 1447306019;

pub const DL: u64 = 1279533859;

pub const HL: u64 = 1279796003;

pub const SD: u64 = 1146299171;

pub const TX: u64 = 1481909027;

pub const MD: u64 = 1145905955;

// The kind of the block at a.
pub fn kind_at(image: &[u8], a: u64) -> u64
    ensures { result ≡ kind_at image.now a }
{
    field_at::<4>(image, a)
}

// The length of the block at a.
pub fn size_at(image: &[u8], a: u64) -> u64
    ensures { result ≡ size_at image.now a }
{
    let n = image.len() as u64;
    if n < a {
        return 0;
    }
    field_at::<8>(image, a + 8)
}

// The number of links of the block at a.
pub fn links_at(image: &[u8], a: u64) -> u64
    ensures { result ≡ links_at image.now a }
{
    let n = image.len() as u64;
    if n < a {
        return 0;
    }
    field_at::<8>(image, a + 16)
}

// Link number i, from 0, of the block at a.
pub fn link_at(image: &[u8], a: u64, i: u64) -> u64
    ensures { result ≡ link_at image.now a i }
{
    let n = image.len() as u64;
    if n < a {
        return 0;
    }
    if (n - a) / 8 < i {
        return 0;
    }
    field_at::<8>(image, a + 24 + 8 * i)
}

// The first link of the block at a, 0 where it has none.
pub fn first_link(image: &[u8], a: u64) -> u64
    ensures { result ≡ first_link image.now a }
{
    if 0 < links_at(image, a) {
        return link_at(image, a, 0);
    }
    0
}

// Where the data of the block at a begins, or the image's end where it begins past it.
pub fn data_at(image: &[u8], a: u64) -> u64
    ensures { Begins image.now a result }
{
    let n = image.len() as u64;
    if n < a {
        return n;
    }
    let links = links_at(image, a);
    if (n - a) / 8 < links {
        return n;
    }
    let at = a + 24 + 8 * links;
    if n < at {
        return n;
    }
    at
}

// The number of the N bytes, of eight of them at most, at byte i of the data of the block at a.
pub fn data_field<const N: usize>(image: &[u8], a: u64, i: u64) -> u64
    ensures { Field (min N 8) image.now (data_at image.now a + i) result }
{
    let n = image.len() as u64;
    if n < i {
        return 0;
    }
    field_at::<N>(image, data_at(image, a) + i)
}

// 4: the header runs past the image.
pub fn header_in(image: &[u8], a: u64) -> Result<(), Refusal>
    ensures { verdict_of result ≡ header_in image.now a }
{
    let n = image.len() as u64;
    if n < a {
        return Err(Refusal::OutOfImage(a));
    }
    if n - a < 24 {
        return Err(Refusal::OutOfImage(a));
    }
    Ok(())
}

// 8, 9, 4: the links within the block, its length, its range.
pub fn length_in(most: u64, image: &[u8], a: u64) -> Result<(), Refusal>
    ensures { verdict_of result ≡ length_in most image.now a }
{
    let size = size_at(image, a);
    let links = links_at(image, a);
    if size < 24 {
        return Err(Refusal::LinksPastBlock(a));
    }
    if (size - 24) / 8 < links {
        return Err(Refusal::LinksPastBlock(a));
    }
    if most < size {
        return Err(Refusal::BlockTooLong(a));
    }
    let n = image.len() as u64;
    if n < a {
        return Err(Refusal::OutOfImage(a));
    }
    if n - a < size {
        return Err(Refusal::OutOfImage(a));
    }
    Ok(())
}

// Header range, 8, 9, range: a block that is read whole.
pub fn whole_at(image: &[u8], a: u64) -> Result<(), Refusal>
    ensures { verdict_of result ≡ whole_at image.now a }
{
    header_in(image, a)?;
    length_in(268435456, image, a)
}

// What a block has to be: its kind, with at least so many links and bytes of data.
#[derive(Clone, Copy)]
pub struct Wanted {
    pub kind: u64,
    pub links: u64,
    pub bytes: u64,
}

// 10: it is not what is wanted.
pub fn wanted_at(want: Wanted, image: &[u8], a: u64) -> Result<(), Refusal>
    ensures { verdict_of result ≡ wanted_at (record { kind = want.kind; links = want.links; bytes = want.bytes }) image.now a }
{
    if kind_at(image, a) != want.kind {
        return Err(Refusal::NotAsWanted(a));
    }
    let has = links_at(image, a);
    if has < want.links {
        return Err(Refusal::NotAsWanted(a));
    }
    let size = size_at(image, a);
    if size < 24 {
        return Err(Refusal::NotAsWanted(a));
    }
    if (size - 24) / 8 < has {
        return Err(Refusal::NotAsWanted(a));
    }
    if size - 24 - 8 * has < want.bytes {
        return Err(Refusal::NotAsWanted(a));
    }
    Ok(())
}

// Header range, 8, 9, range, 10.
pub fn block_at(want: Wanted, image: &[u8], a: u64) -> Result<(), Refusal>
    ensures { verdict_of result ≡ block_at (record { kind = want.kind; links = want.links; bytes = want.bytes }) image.now a }
{
    whole_at(image, a)?;
    wanted_at(want, image, a)
}
