// The records of a column's group, stretch by stretch, over a window.
ghost use Rattle.std.specs.Prelude.{[], ◌∷◌, ◌≡◌};
ghost use Rattle.mdf.specs.Records.{most64, size_of};
ghost use Rattle.work_words.specs.Words.{fragments_of};
ghost use Rattle.cells.specs.Spot.{Readable};
ghost use Rattle.data_blocks.specs.Region.{Formed, PieceIn};
ghost use Rattle.window_data.specs.Filled.{FormIn, FromOf, LaysRest, LaysAll};

use crate::piece::lay_piece;
use data_blocks::by::{START, usable};
use data_blocks::piece::Form;
use places::sorted::sorted_next;
use places::stretch::Stretch;

// A record before which all lies before index a; of those of which that is so, one of the last.
pub(crate) fn record_from(f: Form, a: u64) -> u64
    requires { FormIn f }
    ensures { FromOf f a result }
{
    let block = 24 + f.per * f.shape.width;
    let b = a / block;
    if f.blocks <= b {
        return f.records;
    }
    let first = b * f.per;
    let inside = a % block;
    if inside < 24 {
        return first;
    }
    let q = (inside - 24) / f.shape.width;
    (first + q).min(f.records)
}

// The records of a stretch from number r on.
pub(crate) fn lay_rest(
    w: &mut [u8],
    a: u64,
    image: &[u8],
    fragments: &[u64],
    f: Form,
    r: u64,
    t: Stretch,
)
    requires { Readable image.now fragments.now f.shape × Formed image.now f most64 × PieceIn fragments.now f t }
    ensures { LaysRest image.now fragments.now f a r t w.old w.new }
{
    if t.number + t.count <= r {
        return;
    }
    if r <= t.number {
        lay_piece(w, a, image, fragments, f, t);
        return;
    }
    // The stretch past m, written out: a public function for it would require that the stretch has so many records.
    let m = r - t.number;
    let rest = Stretch {
        number: t.number + m,
        first: t.first + m * t.stride,
        stride: t.stride,
        count: t.count - m,
    };
    lay_piece(w, a, image, fragments, f, rest);
}

// All records of the group at g that is alone in the DG at d, in data of so many bytes.
pub(crate) fn lay_sorted(
    w: &mut [u8],
    a: u64,
    image: &[u8],
    d: u64,
    g: u64,
    fragments: &[u64],
    f: Form,
    size: u64,
)
    requires { Readable image.now fragments.now f.shape × Formed image.now f most64 × (size ≡ size_of (fragments_of fragments.now)) }
    ensures { LaysAll a image.now d 0 (g ∷ []) fragments.now f w.old w.new }
{
    let r = record_from(f, a);
    let mut scan = START;
    let mut at = 0;
    while at < f.records {
        let next = sorted_next(image, d, g, fragments, scan);
        if !usable(next.stretch, at, f, size) {
            return;
        }
        lay_rest(w, a, image, fragments, f, r, next.stretch);
        at += next.stretch.count;
        scan = next.scan;
    }
}
