// A channel of a group, and the data blocks of a column: fields, bytes, fit, kept invalidation bit, records per block.
#![tactic(auto)]

ghost use Rattle.std.specs.Prelude.{◌≡◌};
ghost use Rattle.mdf.specs.Group.{samples, inval_bytes, group_flags, is_storage};
ghost use Rattle.plan.specs.Channel.{channel_type, bit_offset, byte_offset, bit_count, channel_flags, inval_position};
ghost use Rattle.plan.specs.Channel.{channel_bytes, fits, is_master_type, keeps_inval, width};
ghost use Rattle.plan.specs.Geometry.{step_of, per_block, block_count, per_full};
ghost use Rattle.channels.specs.Small.{Small};

use blocks::block::data_field;

// Data bytes of a record of the group at g, and its invalidation bytes.
pub fn samples_of(image: &[u8], g: u64) -> u64
    ensures { Small 4 (samples image.now g) result }
{
    data_field::<4>(image, g, 24)
}

pub fn inval_bytes_of(image: &[u8], g: u64) -> u64
    ensures { Small 4 (inval_bytes image.now g) result }
{
    data_field::<4>(image, g, 28)
}

pub fn group_flags(image: &[u8], g: u64) -> u64
    ensures { Small 2 (group_flags image.now g) result }
{
    data_field::<2>(image, g, 16)
}

// The group at g is a VLSD storage group.
pub fn is_storage(image: &[u8], g: u64) -> bool
    ensures { result ≡ is_storage image.now g }
{
    group_flags(image, g) % 2 == 1
}

// Fields of the CN at c.
pub fn channel_type(image: &[u8], c: u64) -> u64
    ensures { Small 1 (channel_type image.now c) result }
{
    data_field::<1>(image, c, 0)
}

pub fn bit_offset(image: &[u8], c: u64) -> u64
    ensures { Small 1 (bit_offset image.now c) result }
{
    data_field::<1>(image, c, 3)
}

pub fn byte_offset(image: &[u8], c: u64) -> u64
    ensures { Small 4 (byte_offset image.now c) result }
{
    data_field::<4>(image, c, 4)
}

pub fn bit_count(image: &[u8], c: u64) -> u64
    ensures { Small 4 (bit_count image.now c) result }
{
    data_field::<4>(image, c, 8)
}

pub fn channel_flags(image: &[u8], c: u64) -> u64
    ensures { Small 4 (channel_flags image.now c) result }
{
    data_field::<4>(image, c, 12)
}

pub fn inval_position(image: &[u8], c: u64) -> u64
    ensures { Small 4 (inval_position image.now c) result }
{
    data_field::<4>(image, c, 16)
}

// Bytes of the channel in a record.
pub fn channel_bytes(image: &[u8], c: u64) -> u64
    ensures { Small 4 (channel_bytes image.now c) result }
{
    match channel_type(image, c) {
        3 => 0,
        6 => 0,
        _ => (bit_offset(image, c) + bit_count(image, c) + 7) / 8,
    }
}

// It fits the records of the group at g.
pub fn fits_in(image: &[u8], g: u64, c: u64) -> bool
    ensures { result ≡ fits image.now g c }
{
    bit_offset(image, c) <= 7
        && byte_offset(image, c) + channel_bytes(image, c) <= samples_of(image, g)
}

// Type 2 or 3.
pub fn is_master_type(image: &[u8], c: u64) -> bool
    ensures { result ≡ is_master_type image.now c }
{
    let t = channel_type(image, c);
    t == 2 || t == 3
}

// Its invalidation bit is kept.
pub fn keeps_inval(image: &[u8], g: u64, c: u64) -> bool
    ensures { result ≡ keeps_inval image.now g c }
{
    let flags = channel_flags(image, c);
    if flags % 2 != 0 {
        return false;
    }
    flags / 2 % 2 == 1 && inval_position(image, c) / 8 < inval_bytes_of(image, g)
}

// Bytes of a record of its column.
pub fn width_of(image: &[u8], g: u64, c: u64) -> u64
    ensures { Small 5 (width image.now g c) result }
{
    let n = channel_bytes(image, c);
    if keeps_inval(image, g, c) { n + 1 } else { n }
}

// The step of a width: 8 divided by the largest power of two, at most 8, that divides it, by its trailing zeros, capped at three.
pub fn step_of(w: u64) -> u64
    ensures { Small 1 (step_of w) result }
{
    match w.trailing_zeros() {
        0 => 8,
        1 => 4,
        2 => 2,
        _ => 1,
    }
}

// Records of a full block, for the block size and the width w of a record.
pub fn per_block(size: u64, w: u64) -> u64
    ensures { result ≡ per_block size w }
{
    if w == 0 {
        return 1;
    }
    let step = step_of(w);
    step.max(size / w / step * step)
}

// Blocks of a column of n records.
pub fn block_count(size: u64, w: u64, n: u64) -> u64
    ensures { result ≡ block_count size w n }
{
    if w == 0 || n == 0 {
        return 0;
    }
    (n - 1) / per_block(size, w) + 1
}

// Records of a block of it that is not the last, or of the only one.
pub fn per_full(size: u64, w: u64, n: u64) -> u64
    ensures { result ≡ per_full size w n }
{
    n.min(per_block(size, w))
}
