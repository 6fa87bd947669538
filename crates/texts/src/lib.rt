// Numbers and refusals as texts, laid over a lent slice. What would lie past the slice's end is lost.
#![tactic(auto)]

ghost use Rattle.std.specs.Prelude.{[], ◌∷◌, ◌+◌, ◌≤◌, length};
ghost use Rattle.result.specs.Listing.{digits_of, decimal, refusal_text};
ghost use Rattle.texts.specs.Laid.{Laid};

use puts::{copy, put_u8};

// One byte at index at, which may be any; answers how many bytes that is, 1.
pub fn put_byte(lines: &mut [u8], at: usize, x: u8) -> usize
    ensures { Laid at (x ∷ []) 1 lines.old lines.new (at + result) }
{
    put_u8(lines, at, x as u64);
    1
}

// A text at index at, which may be any; answers how many bytes it has.
pub fn put_text(lines: &mut [u8], at: usize, text: &[u8]) -> usize
    ensures { Laid at text.now (length text.now) lines.old lines.new (at + result) }
{
    copy(lines, at, text, 0, text.len() as u64);
    text.len()
}

// The decimal digits of n, at most so many; answers the index past them.
fn put_digits(lines: &mut [u8], at: usize, most: u64, n: u64) -> usize
    requires { at + most ≤ 2305843009213693952 }
    ensures { Laid at (digits_of most n) most lines.old lines.new result }
{
    if most == 0 {
        return at;
    }
    let digit = b'0' + (n % 10) as u8;
    let more = n / 10;
    if more == 0 {
        return at + put_byte(lines, at, digit);
    }
    let p = put_digits(lines, at, most - 1, more);
    p + put_byte(lines, p, digit)
}

// A number at index at, which may be any; answers how many digits it has.
pub fn put_decimal(lines: &mut [u8], at: usize, n: u64) -> usize
    ensures { Laid at (decimal n) 20 lines.old lines.new (at + result) }
{
    let mut digits = [0u8; 20];
    let count = put_digits(&mut digits, 0, 20, n);
    copy(lines, at, &digits, 0, count as u64);
    count
}

// `refused N place P` at the front; answers how many bytes it has.
pub fn put_refusal(lines: &mut [u8], number: u64, place: u64) -> usize
    ensures { Laid 0 (refusal_text number place) 56 lines.old lines.new result }
{
    let mut p = put_text(lines, 0, b"refused ");
    p += put_decimal(lines, p, number);
    p += put_text(lines, p, b" place ");
    p += put_decimal(lines, p, place);
    p + put_byte(lines, p, b'\n')
}
