// The fields of a CG and of a DG that framing and counting need.
ghost use Rattle.std.specs.Prelude.{◌≡◌};
ghost use Rattle.mdf.specs.Walk.{id_size};
ghost use Rattle.mdf.specs.Group.{record_id, samples, inval_bytes, is_storage};
ghost use Rattle.mdf.specs.Records.{record_size};
ghost use Rattle.records.specs.Straddle.{kind_if};
ghost use Rattle.records.specs.Bounded.{Bounded};

use blocks::block::data_field;

// The size of the record ids of the DG at d.
pub fn id_size(image: &[u8], d: u64) -> u64
    ensures { Bounded 256 (id_size image.now d) result }
{
    data_field::<1>(image, d, 0)
}

// The record id of the CG at g.
pub fn record_id(image: &[u8], g: u64) -> u64
    ensures { result ≡ record_id image.now g }
{
    data_field::<8>(image, g, 0)
}

// The data bytes of a record of the CG at g.
pub fn samples_of(image: &[u8], g: u64) -> u64
    ensures { Bounded 4294967296 (samples image.now g) result }
{
    data_field::<4>(image, g, 24)
}

// The invalidation bytes of a record of the CG at g.
pub fn inval_bytes(image: &[u8], g: u64) -> u64
    ensures { Bounded 4294967296 (inval_bytes image.now g) result }
{
    data_field::<4>(image, g, 28)
}

// Whether the CG at g is a VLSD storage group.
pub fn is_storage(image: &[u8], g: u64) -> bool
    ensures { result ≡ is_storage image.now g }
{
    data_field::<2>(image, g, 16) % 2 == 1
}

// The bytes of a record of the group at g that is alone in the DG at d, in DV or in DT.
pub fn record_size(image: &[u8], d: u64, g: u64, dv: bool) -> u64
    ensures { Bounded 8589934848 (record_size image.now d g (kind_if dv)) result }
{
    if dv {
        return samples_of(image, g);
    }
    id_size(image, d) + samples_of(image, g) + inval_bytes(image, g)
}
