// Bytes of a file, laid over a window of it that begins at index a. What lies before the window is left out, what lies past its end is lost, so each
// takes any window, any index and any number.
#![tactic(auto)]

pub mod seen;

ghost use Rattle.std.specs.Prelude.{◌≡◌};
ghost use Rattle.base.specs.Blit.{part};
ghost use Rattle.base.specs.Field.{le};
ghost use Rattle.result.specs.Fill.{header};
ghost use Rattle.stores.specs.Over.{over};

use puts::{copy, header, put_u64};

// n bytes of s from index from, as many as there are, which stand at index at of the file.
pub fn lay(w: &mut [u8], a: u64, at: u64, s: &[u8], from: u64, n: u64)
    ensures { w.new ≡ over a at (part from n s.now) w.old }
{
    let to = at.saturating_sub(a);
    let skip = a.saturating_sub(at);
    copy(
        w,
        to as usize,
        s,
        from.saturating_add(skip),
        n.saturating_sub(skip),
    );
}

// The 8 bytes of x.
pub fn lay_u64(w: &mut [u8], a: u64, at: u64, x: u64)
    ensures { w.new ≡ over a at (le 8 x) w.old }
{
    let mut bytes = [0u8; 8];
    put_u64(&mut bytes, 0, x);
    lay(w, a, at, &bytes, 0, 8);
}

// A block's header.
pub fn lay_header(w: &mut [u8], a: u64, at: u64, kind: u64, size: u64, links: u64)
    ensures { w.new ≡ over a at (header kind size links) w.old }
{
    let mut bytes = [0u8; 24];
    header(&mut bytes, kind, size, links);
    lay(w, a, at, &bytes, 0, 24);
}
