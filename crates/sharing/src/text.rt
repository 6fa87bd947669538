// The unit texts of masters.
ghost use Rattle.std.specs.Prelude.{◌≡◌};
ghost use Rattle.fields.specs.Answer.{verdict_of};
ghost use Rattle.mdf.specs.Name.{name_at};
ghost use Rattle.result.specs.Sharing.{same, text_at, unit_of};
ghost use Rattle.sharing.specs.Text.{text_kind, BodyOf};

use crate::bytes::bytes_same;
use blocks::block::{MD, TX, kind_at, link_at, size_at};
use blocks::name::name_at;
use fields::refusal::Refusal;

// The kind of the text at a, 0 for none.
pub fn text_kind(image: &[u8], a: u64) -> u64
    ensures { result ≡ text_kind image.now a }
{
    if a == 0 {
        return 0;
    }
    match kind_at(image, a) {
        TX => TX,
        MD => MD,
        _ => 0,
    }
}

// How many bytes it has past its header, inside the image.
pub fn text_bytes(image: &[u8], a: u64) -> u64
    ensures { BodyOf image.now a result }
{
    let left = (image.len() as u64).saturating_sub(24).saturating_sub(a);
    size_at(image, a).saturating_sub(24).min(left)
}

// The texts at a and at b are equal: kind and all bytes after 24, none equal only to none.
pub fn text_same(image: &[u8], a: u64, b: u64) -> bool
    ensures { result ≡ same (text_at image.now a) (text_at image.now b) }
{
    let kind = text_kind(image, a);
    if text_kind(image, b) != kind {
        return false;
    }
    if kind == 0 {
        return true;
    }
    let n = text_bytes(image, a);
    if text_bytes(image, b) != n {
        return false;
    }
    if n == 0 {
        return true;
    }
    bytes_same(image, (a + 24) as usize, (b + 24) as usize, n as usize)
}

// The units of the CN at m and at k are equal.
pub fn unit_same(image: &[u8], m: u64, k: u64) -> bool
    ensures { result ≡ same (text_at image.now (unit_of image.now m)) (text_at image.now (unit_of image.now k)) }
{
    text_same(image, link_at(image, m, 6), link_at(image, k, 6))
}

// The unit of the CN at m is read as a name is.
pub fn unit_in(image: &[u8], m: u64) -> Result<(), Refusal>
    ensures { verdict_of result ≡ name_at image.now (unit_of image.now m) }
{
    name_at(image, link_at(image, m, 6))
}
