// A name: TX or MD, read for its whole length.
ghost use Rattle.std.specs.Prelude.{◌≡◌};
ghost use Rattle.fields.specs.Answer.{verdict_of};
ghost use Rattle.mdf.specs.Name.{text_in, name_at};

use crate::block::{MD, TX, header_in, kind_at, size_at};
use fields::refusal::Refusal;

// 4: under 24 bytes, or past the image.
pub fn text_in(image: &[u8], a: u64) -> Result<(), Refusal>
    ensures { verdict_of result ≡ text_in image.now a }
{
    let size = size_at(image, a);
    if size < 24 {
        return Err(Refusal::OutOfImage(a));
    }
    let n = image.len() as u64;
    if n < a {
        return Err(Refusal::OutOfImage(a));
    }
    if n - a < size {
        return Err(Refusal::OutOfImage(a));
    }
    Ok(())
}

// The name at a, 0 for none.
pub fn name_at(image: &[u8], a: u64) -> Result<(), Refusal>
    ensures { verdict_of result ≡ name_at image.now a }
{
    if a == 0 {
        return Ok(());
    }
    header_in(image, a)?;
    let kind = kind_at(image, a);
    if kind == TX {
        return text_in(image, a);
    }
    if kind == MD {
        return text_in(image, a);
    }
    Ok(())
}
