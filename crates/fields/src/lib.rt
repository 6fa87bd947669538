// Little-endian fields of a slice of bytes; what a refusal is.
#![tactic(auto)]

ghost use Rattle.std.specs.Prelude.{◌+◌, ◌≤◌, min, length};
ghost use Rattle.base.specs.Field.{Field};

pub mod refusal;

// The number of the N bytes at p, of eight of them at most, all of them in the slice.
fn field_in<const N: usize>(s: &[u8], p: usize) -> u64
    requires { p + min N 8 ≤ length s.now }
    ensures { Field (min N 8) s.now p result }
{
    let width = N.min(8);
    let mut bytes = [0u8; 8];
    bytes[..width].copy_from_slice(&s[p..p + width]);
    u64::from_le_bytes(bytes)
}

// The number of the N bytes at an index, of eight of them at most; a byte past the end counts as 0.
pub fn field_at<const N: usize>(s: &[u8], at: u64) -> u64
    ensures { Field (min N 8) s.now at result }
{
    let n = s.len() as u64;
    if n <= at {
        return 0;
    }
    let p = at as usize;
    let left = s.len() - p;
    if N.min(8) <= left {
        return field_in::<N>(s, p);
    }
    let mut bytes = [0u8; 8];
    bytes[..left].copy_from_slice(&s[p..]);
    u64::from_le_bytes(bytes)
}
