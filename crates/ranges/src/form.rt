// The form of a column (document 02, request 1).
ghost use Rattle.std.specs.Prelude.{◌≡◌, ◌*◌, true, eqb};
ghost use Rattle.base.specs.Choice.{if_eq};
ghost use Rattle.mdf.specs.Block.{links_at};
ghost use Rattle.mdf.specs.Records.{is_dv, size_of};
ghost use Rattle.records.specs.Bounded.{Bounded};
ghost use Rattle.file.specs.Form.{cycles, record_bytes, links_formed, is_equal_length, have_length, list_formed, one_kind, formed};
ghost use Rattle.ranges.specs.Blocks.{block_in, listed_from, none_from, blocks_of, column_of, all_of, differs};

use crate::block::{bytes_at, links_of};
use crate::seek::sums;
use blocks::block::{DL, DT, data_field, kind_at, link_at, links_at, size_at};
use records::group::{id_size, inval_bytes, samples_of};

// Whether no link of the DL at a but the first is 0.
fn none_zero(image: &[u8], a: u64, links: u64) -> bool
    ensures { result ≡ none_from image.now a links 1 }
{
    for i in 1..links {
        if link_at(image, a, i) == 0 {
            return false;
        }
    }
    true
}

// Whether each of its blocks but the last has n bytes.
fn have_length(image: &[u8], a: u64, links: u64, n: u64) -> bool
    ensures { result ≡ have_length n (listed_from image.now a links 1) }
{
    for i in 1..links.saturating_sub(1) {
        if bytes_at(image, link_at(image, a, i)) != n {
            return false;
        }
    }
    true
}

// Whether the block at x isn't DV, or isn't DT: dv is the kind that the definition asks for, no step of the code.
fn is_other(dv: bool, image: &[u8], x: u64) -> bool
    ensures { result ≡ differs (is_dv (block_in image.now x).kind) dv }
{
    (kind_at(image, x) == DT) == dv
}

// Whether all of its blocks are DV, or all are DT.
fn all_of(dv: bool, image: &[u8], a: u64, links: u64) -> bool
    ensures { result ≡ all_of dv (listed_from image.now a links 1) }
{
    for i in 1..links {
        if is_other(dv, image, link_at(image, a, i)) {
            return false;
        }
    }
    true
}

// "only its first link zero"
fn links_formed(image: &[u8], a: u64) -> bool
    ensures { result ≡ links_formed image.now a }
{
    let links = links_at(image, a);
    if links == 0 || link_at(image, a, 0) != 0 {
        return false;
    }
    none_zero(image, a, links)
}

// "the equal-length bit set", with room for the length
fn is_equal_length(image: &[u8], a: u64) -> bool
    ensures { result ≡ is_equal_length image.now a }
{
    let size = size_at(image, a);
    if size < 40 || (size - 40) / 8 < links_at(image, a) {
        return false;
    }
    data_field::<1>(image, a, 0) % 2 == 1
}

// "one DL with the equal-length bit set and only its first link zero; .. each but the last has the DL's length"
fn list_formed(image: &[u8], a: u64) -> bool
    ensures { result ≡ list_formed image.now a (listed_from image.now a (links_at image.now a) 1) }
{
    if kind_at(image, a) != DL || !links_formed(image, a) || !is_equal_length(image, a) {
        return false;
    }
    have_length(image, a, links_at(image, a), data_field::<8>(image, a, 8))
}

// "a data link that is 0 or leads straight to one DL"
fn data_formed(image: &[u8], a: u64) -> bool
    ensures { result ≡ if_eq a 0 true (list_formed image.now a (blocks_of image.now a)) }
{
    a == 0 || list_formed(image, a)
}

// "all its blocks are DT, or all are DV without invalidation bytes"
fn is_one_kind(image: &[u8], g: u64, a: u64, links: u64) -> bool
    ensures { result ≡ one_kind image.now g (listed_from image.now a links 1) }
{
    if all_of(false, image, a, links) {
        return true;
    }
    all_of(true, image, a, links) && inval_bytes(image, g) == 0
}

// The cycle count of the CG at g.
pub fn cycles_of(image: &[u8], g: u64) -> u64
    ensures { result ≡ cycles image.now g }
{
    data_field::<8>(image, g, 8)
}

// The bytes of a record: data bytes and invalidation bytes.
pub fn record_bytes(image: &[u8], g: u64) -> u64
    ensures { Bounded 8589934591 (record_bytes image.now g) result }
{
    samples_of(image, g) + inval_bytes(image, g)
}

// "together they hold exactly the records its CG's cycle count names"
fn hold_records(image: &[u8], g: u64, a: u64, links: u64) -> bool
    ensures { result ≡ eqb (size_of (listed_from image.now a links 1))
        (cycles image.now g * record_bytes image.now g) }
{
    let w = record_bytes(image, g);
    if w == 0 {
        return sums(image, a, links, 0, 1);
    }
    sums(image, a, links, cycles_of(image, g), w)
}

// The form of the column of the DG at d and the CG at g.
pub fn is_formed(image: &[u8], d: u64, g: u64) -> bool
    ensures { result ≡ formed image.now (column_of image.now d g 0) }
{
    let a = link_at(image, d, 2);
    if id_size(image, d) != 0 || !data_formed(image, a) {
        return false;
    }
    let links = links_of(image, a);
    is_one_kind(image, g, a, links) && hold_records(image, g, a, links)
}
