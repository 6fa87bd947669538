// The sizes of a column that is kept, out of its words. No number passes 2^61: past 2^59 it is enough to know that it is so.
ghost use Rattle.std.specs.Prelude.{◌≡◌, ◌+◌, ◌*◌, ◌≤◌};
ghost use Rattle.base.specs.Choice.{if_eq};
ghost use Rattle.plan.specs.Layout.{dl_size, blocks_end, signal_end};
ghost use Rattle.plan.specs.Geometry.{align_to};
ghost use Rattle.payload_laws.specs.UnitLaws.{IsUnit};
ghost use Rattle.arranging.specs.Sized.{Cut, blocks_in, cg_bytes, structure_at, signal_size_at, sizes_at};

use crate::kept::Kept;
use blocks::block::link_at;
use copier::columns::word;
use copier::memo::aligned;
use photos::photos_of;
use ranges::block::{bytes_at, links_of};
use ranges::form::record_bytes;

// A number of bytes, cut.
pub fn cut(x: u64) -> u64
    ensures { Cut 576460752303423489 x result }
{
    x.min(576460752303423489)
}

// The bytes of n things of w bytes each, cut.
pub fn times(n: u64, w: u64) -> u64
    ensures { Cut 576460752303423489 (n * w) result }
{
    n.saturating_mul(w).min(576460752303423489)
}

// The data blocks of the column whose DG stands at a: none at data link 0, else the links of the DL but the first.
pub fn blocks_of(image: &[u8], a: u64) -> u64
    ensures { result ≡ blocks_in image.now a }
{
    links_of(image, link_at(image, a, 2)).saturating_sub(1)
}

// Bytes of a CG, by the word of its master.
pub fn cg_bytes(master: u64) -> u64
    ensures { result ≡ cg_bytes master }
{
    if master == 0 { 104 } else { 112 }
}

// Bytes of a DL of n blocks, cut: none without blocks.
fn dl_bytes(n: u64) -> u64
    ensures { Cut 576460752303423489 (dl_size n) result }
{
    if n == 0 {
        return 0;
    }
    n.saturating_mul(8)
        .saturating_add(48)
        .min(576460752303423489)
}

// DG, CG, CN and DL of the column with words from p on, cut.
pub(crate) fn structure_at(file: &Kept, p: u64) -> u64
    requires { p ≤ 4096 }
    ensures { Cut 1152921504606846976 (structure_at file.now.image.now file.now.columns.now p) result }
{
    let cg = cg_bytes(word(file.columns, p + 5));
    let references = photos_of(true, file.image, word(file.columns, p));
    let dl = dl_bytes(blocks_of(file.image, word(file.columns, p + 2)));
    64 + cg + (160 + 8 * references) + dl
}

// Past its data blocks, which begin at d, cut.
pub(crate) fn blocks_end(file: &Kept, p: u64, d: u64) -> u64
    requires { (p ≤ 4096) × (d ≤ 1152921504606846976) }
    ensures { Cut 4611686018427387904 (blocks_end (sizes_at file.now.image.now file.now.columns.now p) d) result }
{
    let heads = times(24, blocks_of(file.image, word(file.columns, p + 2)));
    let payload = times(
        word(file.columns, p + 3),
        record_bytes(file.image, word(file.columns, p + 1)),
    );
    aligned(d + (heads + payload))
}

// Past its SD, which begins at d, cut.
pub(crate) fn signal_end(file: &Kept, p: u64, d: u64) -> u64
    requires { (p ≤ 4096) × (d ≤ 1152921504606846976) }
    ensures { Cut 4611686018427387904 (signal_end (signal_size_at file.now.image.now file.now.columns.now p) d) result }
{
    if word(file.columns, p + 6) == 0 {
        return d;
    }
    let bytes = cut(bytes_at(file.image, link_at(file.image, word(file.columns, p), 5)));
    aligned(d + (24 + bytes))
}

// Where something begins, past d: on a unit, if there is any of it.
pub(crate) fn start_of(unit: u64, any: u64, d: u64) -> u64
    requires { (d ≤ 1152921504606846976) × IsUnit unit }
    ensures { result ≡ if_eq any 0 d (align_to unit d) }
{
    if any == 0 {
        d
    } else {
        (d + (unit - 1)) / unit * unit
    }
}
