// The records of a stretch in the blocks of a column, over a window.
ghost use Rattle.std.specs.Prelude.{true, false, ◌≡◌, ◌+◌, ◌≤◌};
ghost use Rattle.mdf.specs.Records.{most64};
ghost use Rattle.cells.specs.Spot.{Readable};
ghost use Rattle.data_blocks.specs.Region.{Formed, PieceIn, places_of};
ghost use Rattle.window_data.specs.Region.{start_at, BlockIn, LaysStart, LaysPiece};

use data_blocks::piece::Form;
use places::stretch::Stretch;
use window_cells::stretch::{Run, lay_stretch};
use windows::lay_header;

// The index of what stands before the cell of record number at: its block's header, if it begins a block.
pub(crate) fn start_of(f: Form, at: u64) -> u64
    requires { BlockIn f at }
    ensures { result ≡ start_at f at }
{
    24 * (at / f.per) + at * f.shape.width
}

// Whether index x lies past a window of so many bytes that begins at a.
pub(crate) fn is_past(room: u64, a: u64, x: u64) -> bool
    ensures { result ≡ true → a + room ≤ x }
{
    a <= x && room <= x - a
}

// The header, if record number at begins a block; the index of its cell.
fn lay_start(w: &mut [u8], a: u64, f: Form, at: u64) -> u64
    requires { BlockIn f at }
    ensures { (result ≡ start_at f at + 24) × LaysStart f a at w.old w.new }
{
    let place = start_of(f, at);
    if 0 < at % f.per {
        return place + 24;
    }
    let count = f.per.min(f.records - at);
    lay_header(w, a, place, f.kind, 24 + count * f.shape.width, 0);
    place + 24
}

// The records of the stretch t.
pub(crate) fn lay_piece(w: &mut [u8], a: u64, image: &[u8], fragments: &[u64], f: Form, t: Stretch)
    requires { Readable image.now fragments.now f.shape × Formed image.now f most64 × PieceIn fragments.now f t }
    ensures { LaysPiece image.now fragments.now f a t.number t.count (places_of t) w.old w.new }
{
    let mut at = t.number;
    let mut offset = t.first;
    let mut left = t.count;
    loop {
        if is_past(w.len() as u64, a, start_of(f, at)) {
            return;
        }
        let body = lay_start(w, a, f, at);
        let c = (f.per - at % f.per).min(left);
        let r = Run {
            at: body,
            first: offset,
            stride: t.stride,
            n: c,
        };
        lay_stretch(w, a, image, fragments, f.shape, r);
        if c == left {
            return;
        }
        at += c;
        offset += c * t.stride;
        left -= c;
    }
}
