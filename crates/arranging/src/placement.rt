// The places of columns: DG, CG, CN and DL one behind the other, then data blocks and SD, each on the unit.
ghost use Rattle.std.specs.Prelude.{◌≡◌, [], ◌∷◌, ◌+◌, ◌≤◌, length};
ghost use Rattle.base.specs.Blit.{blit};
ghost use Rattle.plan.specs.Layout.{structures_end};
ghost use Rattle.thin.specs.TakenOut.{most_file};
ghost use Rattle.arranging.specs.Kept.{sizes_of};
ghost use Rattle.arranging.specs.Sized.{sizes_at};
ghost use Rattle.arranging.specs.Spots.{Ends, Spots, AllPlaced};

use crate::kept::Kept;
use crate::sizes::{blocks_end, blocks_of, signal_end, start_of, structure_at};
use copier::columns::word;

// Where the data blocks and the SD of a column begin, and where all of it ends.
#[derive(Clone, Copy)]
pub struct Spot {
    pub first: u64,
    pub sd: u64,
    pub end: u64,
}

// Past the DG, CG, CN and DL of all columns, which begin at a; none past 2^59.
pub(crate) fn structure_end(file: &Kept, a: u64) -> Option<u64>
    requires { a ≤ most_file }
    ensures { Ends result (structures_end a (sizes_of file.now)) }
{
    let mut end = a;
    for k in 0..file.count {
        end += structure_at(file, 8 * k);
        if 576460752303423488 < end {
            return None;
        }
    }
    Some(end)
}

// The data of the column with words from p on, past d; none where it ends past 2^59.
fn spot_of(file: &Kept, p: u64, d: u64) -> Option<Spot>
    requires { (p ≤ 4096) × (d ≤ most_file) }
    ensures { Spots file.now.unit (sizes_at file.now.image.now file.now.columns.now p) d result }
{
    let blocks = blocks_of(file.image, word(file.columns, p + 2));
    let first = start_of(file.unit, blocks, d);
    let past = blocks_end(file, p, first);
    if 576460752303423488 < past {
        return None;
    }
    let sd = start_of(file.unit, word(file.columns, p + 6), past);
    let end = signal_end(file, p, sd);
    if 576460752303423488 < end {
        return None;
    }
    Some(Spot { first, sd, end })
}

// The three words of a placed column, from word q on.
fn put_place(memo: &mut [u64], q: usize, dg: u64, first: u64, sd: u64)
    requires { q + 3 ≤ length memo.old }
    ensures { memo.new ≡ blit q (dg ∷ first ∷ sd ∷ []) memo.old }
{
    memo[q] = dg;
    memo[q + 1] = first;
    memo[q + 2] = sd;
}

// The places of all columns, whose DG begin at a and whose data begin at d, in the words from 6656 on; past their data, none past 2^59.
pub(crate) fn place_columns(file: &Kept, memo: &mut [u64], a: u64, d: u64) -> Option<u64>
    requires { (8192 ≤ length memo.old) × (d ≤ most_file) × (structures_end a (sizes_of file.now) ≤ most_file) }
    ensures { AllPlaced file.now.unit file.now.image.now file.now.columns.now file.now.count a d memo.old memo.new result }
{
    let mut dg = a;
    let mut past = d;
    for k in 0..file.count {
        let spot = spot_of(file, 8 * k, past)?;
        put_place(memo, 6656 + 3 * k as usize, dg, spot.first, spot.sd);
        dg += structure_at(file, 8 * k);
        past = spot.end;
    }
    Some(past)
}
