// The time columns of two groups.
ghost use Rattle.std.specs.Prelude.{◌≡◌};
ghost use Rattle.cells.specs.Shape.{Shaped};
ghost use Rattle.comparing.specs.Timed.{RecordsSame};
ghost use Rattle.comparing.specs.Comparable.{TimesSame};

use crate::head::{head_at, head_begin, head_past};
use crate::run::some_same;
use cells::cell::{Shape, shape_of};
use channels::fits_in;
use records::table::make_tables;

// A group: its DG, its number among the DG's groups, its CG, its master, its count of records.
#[derive(Clone, Copy)]
pub struct Clock {
    pub dg: u64,
    pub number: u64,
    pub at: u64,
    pub master: u64,
    pub records: u64,
}

// The cells of all records, of one form.
fn records_same(
    image: &[u8],
    a: Clock,
    h: Shape,
    groups: &[u64],
    fragments: &[u64],
    b: Clock,
    i: Shape,
    others: &[u64],
    pieces: &[u64],
) -> bool
    requires { Shaped image.now h × Shaped image.now i × (h.bytes ≡ i.bytes) × (h.keep ≡ i.keep) }
    ensures { RecordsSame image.now a h groups.now fragments.now b i others.now pieces.now result }
{
    let mut ids = [0u64; 512];
    let mut sizes = [0u64; 512];
    let mut hints = [0u64; 1536];
    make_tables(image, groups, &mut ids, &mut sizes, &mut hints);
    let mut names = [0u64; 512];
    let mut lengths = [0u64; 512];
    let mut guesses = [0u64; 1536];
    make_tables(image, others, &mut names, &mut lengths, &mut guesses);
    let mut x = head_begin();
    let mut y = head_begin();
    let mut at = 0;
    while at < a.records {
        let p = head_at(image, a, groups, fragments, &ids, &sizes, &mut hints, x);
        let q = head_at(image, b, others, pieces, &names, &lengths, &mut guesses, y);
        let r = some_same(image, fragments, p, h, pieces, q, i);
        if !r.equal {
            return false;
        }
        if a.records - at < r.count {
            return false;
        }
        x = head_past(p, r.count);
        y = head_past(q, r.count);
        at += r.count;
    }
    true
}

// The time columns of the groups a and b have equal bytes: their DG have these groups, and fragments, three words each.
pub fn times_same(
    image: &[u8],
    a: Clock,
    groups: &[u64],
    fragments: &[u64],
    b: Clock,
    others: &[u64],
    pieces: &[u64],
) -> bool
    ensures { TimesSame image.now a groups.now fragments.now b others.now pieces.now result }
{
    if !fits_in(image, a.at, a.master) {
        return false;
    }
    if !fits_in(image, b.at, b.master) {
        return false;
    }
    let h = shape_of(image, a.at, a.master);
    let i = shape_of(image, b.at, b.master);
    if h.bytes != i.bytes {
        return false;
    }
    if h.keep != i.keep {
        return false;
    }
    if h.width == 0 {
        return true;
    }
    records_same(image, a, h, groups, fragments, b, i, others, pieces)
}
