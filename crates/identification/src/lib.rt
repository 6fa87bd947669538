// The identification block, the first 64 bytes of the image: refusals 4, 5, 6 and 7.
#![tactic(auto)]

ghost use Rattle.std.specs.Prelude.{◌≡◌, ℕ, Bool};
ghost use Rattle.fields.specs.Answer.{verdict_of};
ghost use Rattle.mdf.specs.Identification.{drop_while, is_zero, is_space, trimmed, first_part, past_dot, digits, number, second, version_of, is_ascii, version_in, identified};
ghost use Rattle.identification.specs.Answer.{number_of, rest_of};
ghost use Rattle.identification.specs.Cut.{trim_end};

use fields::field_at;
use fields::refusal::Refusal;

// `MDF` and five blanks
const FILE_MARK: u64 = 2314885530820953165;

// Whether every byte is at most 127.
fn is_ascii(text: &[u8]) -> bool
    ensures { result ≡ is_ascii text.now }
{
    for &b in text {
        if 127 < b {
            return false;
        }
    }
    true
}

// A kind of byte that is cut off.
trait Cut {
    ghost test: { ℕ → Bool };

    fn cuts(b: u8) -> bool
        ensures { result ≡ test b };
}

struct Zero;

impl Cut for Zero {
    ghost test = { is_zero };

    fn cuts(b: u8) -> bool {
        b == 0
    }
}

// ASCII white space
struct Space;

impl Cut for Space {
    ghost test = { is_space };

    fn cuts(b: u8) -> bool {
        if b == b' ' {
            return true;
        }
        if b < 9 {
            return false;
        }
        b <= 13
    }
}

// The text without what is cut off at its end.
fn cut_end<C: Cut>(text: &[u8]) -> &[u8]
    ensures { result.now ≡ trim_end C.test text.now }
{
    let mut left = text;
    while let Some((&last, before)) = left.split_last() {
        if !C::cuts(last) {
            return left;
        }
        left = before;
    }
    left
}

// The text without what is cut off in front.
fn cut_front<C: Cut>(text: &[u8]) -> &[u8]
    ensures { result.now ≡ drop_while C.test text.now }
{
    let mut left = text;
    while let Some((&first, past)) = left.split_first() {
        if !C::cuts(first) {
            return left;
        }
        left = past;
    }
    left
}

// What stands before the first dot and past it; all of the text, and none, where there is no dot.
fn at_dot(text: &[u8]) -> (&[u8], Option<&[u8]>)
    ensures before { result.0.now ≡ first_part text.now }
    ensures past { rest_of result.1 ≡ past_dot text.now }
{
    for (i, &b) in text.iter().enumerate() {
        if b == b'.' {
            return (&text[..i], Some(&text[i + 1..]));
        }
    }
    (text, None)
}

// One or more digits, a 16-bit number.
fn digits(text: &[u8]) -> Option<u64>
    ensures { number_of result ≡ digits text.now }
{
    if text.is_empty() {
        return None;
    }
    let mut n: u64 = 0;
    for &b in text {
        if b < b'0' {
            return None;
        }
        if b'9' < b {
            return None;
        }
        n = 10 * n + (b - b'0') as u64;
        if 65535 < n {
            return None;
        }
    }
    Some(n)
}

// A 16-bit number, a leading `+` allowed.
fn number(text: &[u8]) -> Option<u64>
    ensures { number_of result ≡ number text.now }
{
    if text.is_empty() {
        return None;
    }
    if text[0] == b'+' {
        return digits(&text[1..]);
    }
    digits(text)
}

// The number up to the next dot, 0 where there was no dot.
fn second(past: Option<&[u8]>) -> Option<u64>
    ensures { number_of result ≡ second (rest_of past.entry) }
{
    match past {
        None => Some(0),
        Some(text) => {
            let parts = at_dot(text);
            number(parts.0)
        }
    }
}

// 100 × the first number + the second.
fn version_of(text: &[u8]) -> Option<u64>
    ensures { number_of result ≡ version_of text.now }
{
    let parts = at_dot(text);
    let first = number(parts.0)?;
    let second = second(parts.1)?;
    Some(100 * first + second)
}

// The version without zero bytes at its end and white space at both ends, as a number.
fn trimmed_version(text: &[u8]) -> Option<u64>
    ensures { number_of result ≡ version_of (trimmed text.now) }
{
    let text = cut_end::<Space>(cut_end::<Zero>(text));
    version_of(cut_front::<Space>(text))
}

// 6: the version is unreadable or has a byte over 127; 7: it is under 410 or over 65,535.
fn version_fits(text: &[u8]) -> Result<(), Refusal>
    ensures { verdict_of result ≡ version_in text.now }
{
    let plain = is_ascii(text);
    if !plain {
        return Err(Refusal::UnreadableVersion);
    }
    let Some(n) = trimmed_version(text) else {
        return Err(Refusal::UnreadableVersion);
    };
    if n < 410 {
        return Err(Refusal::OtherVersion);
    }
    if 65535 < n {
        return Err(Refusal::OtherVersion);
    }
    Ok(())
}

// 4: under 64 bytes; 5: bytes 0..8 are not `MDF` and five blanks; then the version.
pub fn identify(image: &[u8]) -> Result<(), Refusal>
    ensures { verdict_of result ≡ identified image.now }
{
    if image.len() < 64 {
        return Err(Refusal::OutOfImage(0));
    }
    if field_at::<8>(image, 0) != FILE_MARK {
        return Err(Refusal::NotMdf);
    }
    version_fits(&image[8..16])
}
