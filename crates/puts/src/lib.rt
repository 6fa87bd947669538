// Stores into a slice of bytes. What would lie past the slice's end is lost, so each takes any index and any number.
#![tactic(auto)]

ghost use Rattle.std.specs.Prelude.{◌≡◌, ◌+◌, ◌≤◌, min, length, replicate};
ghost use Rattle.base.specs.Field.{le};
ghost use Rattle.base.specs.Blit.{blit, part};
ghost use Rattle.result.specs.Fill.{header};

// The N low bytes of x at index at.
fn put_field<const N: usize>(d: &mut [u8], at: usize, x: u64)
    requires { N ≤ 8 }
    ensures { d.new ≡ blit at (le N x) d.old }
{
    let bytes = x.to_le_bytes();
    let room = d.len();
    if at <= room && N <= room - at {
        d[at..at + N].copy_from_slice(&bytes[..N]);
        return;
    }
    copy(d, at, &bytes, 0, N as u64);
}

// The low byte of x at index at.
pub fn put_u8(d: &mut [u8], at: usize, x: u64)
    ensures { d.new ≡ blit at (le 1 x) d.old }
{
    put_field::<1>(d, at, x);
}

// The 2, 4 and 8 low bytes of x at index at.
pub fn put_u16(d: &mut [u8], at: usize, x: u64)
    ensures { d.new ≡ blit at (le 2 x) d.old }
{
    put_field::<2>(d, at, x);
}

pub fn put_u32(d: &mut [u8], at: usize, x: u64)
    ensures { d.new ≡ blit at (le 4 x) d.old }
{
    put_field::<4>(d, at, x);
}

pub fn put_u64(d: &mut [u8], at: usize, x: u64)
    ensures { d.new ≡ blit at (le 8 x) d.old }
{
    put_field::<8>(d, at, x);
}

// The smaller of two numbers.
pub fn least(a: u64, b: u64) -> u64
    ensures { result ≡ min a b }
{
    a.min(b)
}

// n bytes of s from index from, at index at, all of them inside: byte by byte, for which the compiler puts `memcpy`. std's `copy_from_slice` comes to
// `memmove` besides, which the library needs nowhere else.
fn copy_in(d: &mut [u8], at: usize, s: &[u8], from: usize, n: usize)
    requires { (at + n ≤ length d.old) × (from + n ≤ length s.now) }
    ensures { d.new ≡ blit at (part from n s.now) d.old }
{
    for k in 0..n {
        d[at + k] = s[from + k];
    }
}

// n bytes of s from index from, as many as there are, at index at.
pub fn copy(d: &mut [u8], at: usize, s: &[u8], from: u64, n: u64)
    ensures { d.new ≡ blit at (part from n s.now) d.old }
{
    let room = d.len();
    let all = s.len() as u64;
    if room <= at || all <= from {
        return;
    }
    let have = n.min(all - from);
    let k = have.min((room - at) as u64) as usize;
    copy_in(d, at, s, from as usize, k);
}

// n zero bytes at index at.
pub fn zero(d: &mut [u8], at: usize, n: u64)
    ensures { d.new ≡ blit at (replicate n 0) d.old }
{
    let room = d.len();
    if room <= at {
        return;
    }
    let k = n.min((room - at) as u64) as usize;
    d[at..at + k].fill(0);
}

// A block's header at the front of d.
pub fn header(d: &mut [u8], kind: u64, size: u64, links: u64)
    ensures { d.new ≡ blit 0 (header kind size links) d.old }
{
    put_u32(d, 0, kind);
    put_u32(d, 4, 0);
    put_u64(d, 8, size);
    put_u64(d, 16, links);
}
