// The records of a column's group that shares its DG with others, by framing, over a window.
ghost use Rattle.std.specs.Prelude.{◌≡◌, ◌≤◌, length};
ghost use Rattle.mdf.specs.Records.{most64, size_of};
ghost use Rattle.work_words.specs.Words.{fragments_of};
ghost use Rattle.cells.specs.Spot.{Readable};
ghost use Rattle.data_blocks.specs.Region.{Formed};
ghost use Rattle.window_data.specs.Filled.{FilledIn};

use crate::piece::{is_past, start_of};
use crate::sorted::lay_rest;
use data_blocks::by::{START, usable};
use data_blocks::piece::Form;
use places::several::several_next;
use records::group::id_size;
use records::table::make_tables;

// Of group k of several of the DG at d, from number r on, in data of so many bytes.
pub(crate) fn lay_several(
    w: &mut [u8],
    a: u64,
    image: &[u8],
    d: u64,
    groups: &[u64],
    k: u64,
    fragments: &[u64],
    f: Form,
    size: u64,
    r: u64,
)
    requires { Readable image.now fragments.now f.shape × Formed image.now f most64 × (size ≡ size_of (fragments_of fragments.now))
        × (r ≤ f.records) × (length groups.now ≡ 1 → ⊥) }
    ensures { FilledIn a image.now d k groups.now fragments.now f r f.records w.old w.new }
{
    let mut ids = [0u64; 512];
    let mut sizes = [0u64; 512];
    let mut hints = [0u64; 1536];
    make_tables(image, groups, &mut ids, &mut sizes, &mut hints);
    let n = id_size(image, d);
    let mut scan = START;
    let mut at = 0;
    while at < f.records {
        if is_past(w.len() as u64, a, start_of(f, at)) {
            return;
        }
        let next = several_next(
            image, n, groups, k, fragments, &ids, &sizes, &mut hints, scan,
        );
        if !usable(next.stretch, at, f, size) {
            return;
        }
        lay_rest(w, a, image, fragments, f, r, next.stretch);
        at += next.stretch.count;
        scan = next.scan;
    }
}
