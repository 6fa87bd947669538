// A group that is alone in its DG: whole records, and their count.
ghost use Rattle.std.specs.Prelude.{◌≡◌, ◌+◌, ◌<◌, get_or};
ghost use Rattle.base.specs.Checked.{fine};
ghost use Rattle.fields.specs.Answer.{verdict_of};
ghost use Rattle.work_words.specs.Words.{kind_of, fragments_of};
ghost use Rattle.mdf.specs.Records.{ranges_in, sorted_in, runs, runs_whole};
ghost use Rattle.mdf.specs.Count.{quotient, count_one};
ghost use Rattle.records.specs.Straddle.{straddles, remainder, start_of, dv_fits};
ghost use Rattle.records.specs.Bounded.{Bounded};
ghost use Rattle.records.specs.Counted.{bytes_of, own_bytes, within64};
ghost use Rattle.records.specs.Answer.{counted_of};

use crate::fragment::{any_dv, is_dv, ranges_in, word_at};
use crate::group::{inval_bytes, record_size};
use fields::refusal::Refusal;

// Whether a record straddles: it has bytes in fragments of one kind, and a fragment of the other follows.
fn straddles_in(bytes: u64, was: bool, is: bool) -> bool
    ensures { result ≡ straddles bytes was is }
{
    was != is && 0 < bytes
}

// The bytes of a record begun, size bytes after it had `bytes`; a record has n.
fn remaining(n: u64, bytes: u64, size: u64) -> u64
    requires { (n < 8589934848) × (bytes < 8589934848) }
    ensures { Bounded 8589934848 (remainder n (bytes + size)) result }
{
    if n == 0 {
        return 0;
    }
    (bytes + size % n) % n
}

// Where the record begun starts: in the last fragment, or where it started before.
fn start_of(bytes: u64, offset: u64, size: u64, start: u64) -> u64
    requires { offset + size < 18446744073709551616 }
    ensures { result ≡ start_of bytes offset size start }
{
    if bytes <= size {
        return offset + (size - bytes);
    }
    start
}

// 15: each run of DT or DV holds whole records. One pass: the kind, the bytes of the record begun, and where it starts.
fn runs_whole(image: &[u8], d: u64, g: u64, fragments: &[u64]) -> Result<(), Refusal>
    requires { ranges_in image.now (fragments_of fragments.now) ≡ fine }
    ensures { verdict_of result ≡ runs_whole image.now d g (runs (fragments_of fragments.now)) }
{
    let n = fragments.len() as u64;
    let mut i: u64 = 0;
    let mut dv = false;
    let mut bytes: u64 = 0;
    let mut start: u64 = 0;
    while 2 < n - i {
        let kind = is_dv(fragments, i + 2);
        if straddles_in(bytes, dv, kind) {
            return Err(Refusal::BrokenRecord(start));
        }
        let size = word_at(fragments, i + 1);
        bytes = remaining(record_size(image, d, g, kind), bytes, size);
        start = start_of(bytes, word_at(fragments, i), size, start);
        dv = kind;
        i += 3;
    }
    if 0 < bytes {
        return Err(Refusal::BrokenRecord(start));
    }
    Ok(())
}

// 14: DV with invalidation bytes.
fn dv_fits(image: &[u8], d: u64, g: u64, fragments: &[u64]) -> Result<(), Refusal>
    ensures { verdict_of result ≡ dv_fits image.now d g (fragments_of fragments.now) }
{
    if any_dv(fragments) && inval_bytes(image, g) != 0 {
        return Err(Refusal::Groups(d));
    }
    Ok(())
}

// 14, the ranges, whole records.
pub fn sorted_in(image: &[u8], d: u64, g: u64, fragments: &[u64]) -> Result<(), Refusal>
    ensures { verdict_of result ≡ sorted_in image.now d g (fragments_of fragments.now) }
{
    dv_fits(image, d, g, fragments)?;
    ranges_in(image, fragments)?;
    runs_whole(image, d, g, fragments)
}

// The bytes of the fragment with its words at i, where it is DV or DT as asked, else 0.
fn own_bytes(fragments: &[u64], i: u64, dv: bool) -> u64
    requires { i + 2 < 18446744073709551616 }
    ensures { result ≡ own_bytes dv (kind_of (get_or fragments.now (i + 2) 0)) (get_or fragments.now (i + 1) 0) }
{
    if is_dv(fragments, i + 2) == dv {
        return word_at(fragments, i + 1);
    }
    0
}

// The sum of two numbers, or 19 where it is over 2^64 - 1.
pub(crate) fn sum_within(d: u64, a: u64, b: u64) -> Result<u64, Refusal>
    ensures { counted_of result ≡ within64 d (a + b) }
{
    a.checked_add(b).ok_or(Refusal::OverLimit(d))
}

// The bytes of all DV, or of all DT.
fn bytes_of(d: u64, fragments: &[u64], dv: bool) -> Result<u64, Refusal>
    ensures { counted_of result ≡ within64 d (bytes_of dv (fragments_of fragments.now)) }
{
    let n = fragments.len() as u64;
    let mut i: u64 = 0;
    let mut sum: u64 = 0;
    while 2 < n - i {
        sum = sum_within(d, sum, own_bytes(fragments, i, dv))?;
        i += 3;
    }
    Ok(sum)
}

// "a zero divisor giving 0"
fn quotient_of(n: u64, m: u64) -> u64
    ensures { result ≡ quotient n m }
{
    if m == 0 {
        return 0;
    }
    n / m
}

// The count of a group that is alone in its DG.
pub fn count_one(image: &[u8], d: u64, g: u64, fragments: &[u64]) -> Result<u64, Refusal>
    ensures { counted_of result ≡ count_one image.now d g (fragments_of fragments.now) }
{
    let dt = bytes_of(d, fragments, false)?;
    let dv = bytes_of(d, fragments, true)?;
    let whole = quotient_of(dt, record_size(image, d, g, false));
    sum_within(d, whole, quotient_of(dv, record_size(image, d, g, true)))
}
