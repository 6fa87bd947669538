// The records of a stretch in the blocks of a column.
ghost use Rattle.std.specs.Prelude.{◌≡◌, ◌+◌, ◌-◌, ◌*◌, ◌/◌, ◌≤◌, ◌<◌, min, length};
ghost use Rattle.base.specs.Blit.{blit};
ghost use Rattle.joined.specs.Spot.{SpotOf};
ghost use Rattle.cells.specs.Spot.{Readable};
ghost use Rattle.data_blocks.specs.Region.{start_of, Formed, PieceIn, places_of, PutPiece};

use cells::cell::Shape;
use cells::run::put_stretch;
use joined::spot::Spot;
use places::stretch::Stretch;
use puts::header;

// A column's blocks: the shape of its cells, the kind of the blocks, the records of one that is not the last, how many blocks and records.
#[derive(Clone, Copy)]
pub struct Form {
    pub shape: Shape,
    pub kind: u64,
    pub per: u64,
    pub blocks: u64,
    pub records: u64,
}

// The place of the cell of record number at; if it is a block's first, the block's header is put before it.
pub(crate) fn begin_block(out: &mut [u8], f: Form, at: u64) -> usize
    requires { (0 < f.per) × (at < f.records)
        × (24 * (at / f.per) + at * f.shape.width + 24 + min f.per (f.records - at) * f.shape.width ≤ length out.old) }
    ensures { (result ≡ 24 * (at / f.per) + at * f.shape.width + 24)
        × (out.new ≡ blit (24 * (at / f.per) + at * f.shape.width) (start_of f.kind f.per f.records f.shape.width at) out.old) }
{
    let place = (24 * (at / f.per) + at * f.shape.width) as usize;
    if 0 < at % f.per {
        return place + 24;
    }
    let count = f.per.min(f.records - at);
    header(&mut out[place..], f.kind, 24 + count * f.shape.width, 0);
    place + 24
}

// The records of the stretch t, in the blocks that they lie in.
pub(crate) fn put_piece(
    out: &mut [u8],
    image: &[u8],
    fragments: &[u64],
    f: Form,
    t: Stretch,
    spot: Spot,
) -> Spot
    requires { Readable image.now fragments.now f.shape × Formed image.now f (length out.old)
        × SpotOf image.now fragments.now spot × PieceIn fragments.now f t }
    ensures { SpotOf image.now fragments.now result
        × PutPiece image.now fragments.now f t.number t.count (places_of t) out.old out.new }
{
    let h = f.shape;
    let mut k = spot;
    let mut at = t.number;
    let mut offset = t.first;
    let mut left = t.count;
    loop {
        let body = begin_block(out, f, at);
        let c = (f.per - at % f.per).min(left);
        k = put_stretch(out, body, image, fragments, h, offset, t.stride, c, k);
        if c == left {
            return k;
        }
        at += c;
        offset += c * t.stride;
        left -= c;
    }
}
