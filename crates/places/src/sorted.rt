// The stretches of a group that is alone in its DG, by sizes alone: one for each run of fragments of one kind.
ghost use Rattle.std.specs.Prelude.{[], ◌∷◌, ◌≡◌};
ghost use Rattle.mdf.specs.Records.{id_bytes};
ghost use Rattle.records.specs.Ahead.{fragments_from};
ghost use Rattle.records.specs.Straddle.{kind_if};
ghost use Rattle.places.specs.Run.{with_bytes, Begins, PassedBy, QuotientOf};
ghost use Rattle.places.specs.Scan.{NextFor};

use crate::stretch::{Next, Scan, Stretch};
use records::fragment::{is_dv, word_at};
use records::group::{id_size, record_size};

// Fragments that were passed: the index past their words, and their bytes.
#[derive(Clone, Copy)]
pub struct Passed {
    pub at: u64,
    pub bytes: u64,
}

// The index of the first fragment from here on that has bytes, else of none.
fn some_from(fragments: &[u64], at: u64) -> u64
    ensures { fragments_from fragments.now result ≡ with_bytes (fragments_from fragments.now at) }
{
    let n = fragments.len() as u64;
    let mut i = at;
    while i < n {
        if n - i < 3 {
            return i;
        }
        if word_at(fragments, i + 1) != 0 {
            return i;
        }
        i += 3;
    }
    i
}

// Whether the fragment here is DV.
fn kind_at(fragments: &[u64], at: u64) -> bool
    ensures { Begins (kind_if result) (fragments_from fragments.now at) }
{
    let n = fragments.len() as u64;
    if n < at {
        return false;
    }
    if n - at < 3 {
        return false;
    }
    is_dv(fragments, at + 2)
}

// The fragments from here on that are DV, or DT, up to the first that is not.
fn pass(fragments: &[u64], at: u64, dv: bool) -> Passed
    ensures { PassedBy fragments.now (kind_if dv) at result }
{
    let n = fragments.len() as u64;
    let mut i = at;
    let mut bytes: u64 = 0;
    while i < n {
        if n - i < 3 {
            return Passed { at: i, bytes };
        }
        if is_dv(fragments, i + 2) != dv {
            return Passed { at: i, bytes };
        }
        let size = word_at(fragments, i + 1);
        if 18446744073709551615 - bytes < size {
            return Passed { at: i, bytes };
        }
        bytes += size;
        i += 3;
    }
    Passed { at: i, bytes }
}

// The quotient of two numbers, 0 where the second is.
fn quotient(a: u64, b: u64) -> u64
    ensures { QuotientOf a b result }
{
    a.checked_div(b).unwrap_or(0)
}

// The id bytes of a record, in DV or in DT.
fn id_bytes(image: &[u8], d: u64, dv: bool) -> u64
    ensures { result ≡ id_bytes image.now d (kind_if dv) }
{
    if dv {
        return 0;
    }
    id_size(image, d)
}

// The records of the first run of fragments from a place on that has bytes.
pub fn sorted_next(image: &[u8], d: u64, g: u64, fragments: &[u64], scan: Scan) -> Next
    ensures { NextFor image.now d 0 (g ∷ []) fragments.now scan result }
{
    let at = some_from(fragments, scan.at);
    let dv = kind_at(fragments, at);
    let run = pass(fragments, at, dv);
    let stride = record_size(image, d, g, dv);
    let count = quotient(run.bytes, stride);
    let first = scan.offset.saturating_add(id_bytes(image, d, dv));
    let offset = scan.offset.saturating_add(run.bytes);
    let number = scan.number.saturating_add(count);
    Next {
        stretch: Stretch {
            number: scan.number,
            first,
            stride,
            count,
        },
        scan: Scan {
            at: run.at,
            position: 0,
            left: 0,
            offset,
            number,
        },
    }
}
