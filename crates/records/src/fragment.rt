// A data group's fragments, three words each: offset, size and kind.
ghost use Rattle.std.specs.Prelude.{◌≡◌, get_or};
ghost use Rattle.fields.specs.Answer.{verdict_of};
ghost use Rattle.work_words.specs.Words.{kind_of, fragments_of};
ghost use Rattle.mdf.specs.Records.{ranges_in, is_dv, any_dv};

use fields::refusal::Refusal;

// Word i, 0 past the end.
pub fn word_at(words: &[u64], i: u64) -> u64
    ensures { result ≡ get_or words.now i 0 }
{
    words.get(i as usize).copied().unwrap_or(0)
}

// Whether word i is the kind DV.
pub fn is_dv(words: &[u64], i: u64) -> bool
    ensures { result ≡ is_dv (kind_of (get_or words.now i 0)) }
{
    word_at(words, i) != 0
}

// 4: the data of a fragment runs past the image.
pub fn ranges_in(image: &[u8], fragments: &[u64]) -> Result<(), Refusal>
    ensures { verdict_of result ≡ ranges_in image.now (fragments_of fragments.now) }
{
    let end = image.len() as u64;
    let n = fragments.len() as u64;
    let mut i: u64 = 0;
    while 2 < n - i {
        let offset = word_at(fragments, i);
        let size = word_at(fragments, i + 1);
        if end < offset {
            return Err(Refusal::OutOfImage(offset));
        }
        if end - offset < size {
            return Err(Refusal::OutOfImage(offset));
        }
        i += 3;
    }
    Ok(())
}

// Whether a fragment is DV.
pub fn any_dv(fragments: &[u64]) -> bool
    ensures { result ≡ any_dv (fragments_of fragments.now) }
{
    let n = fragments.len() as u64;
    let mut i: u64 = 0;
    while 2 < n - i {
        if is_dv(fragments, i + 2) {
            return true;
        }
        i += 3;
    }
    false
}
