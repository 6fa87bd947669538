// Zeros up to the place of the next block.
ghost use Rattle.std.specs.Prelude.{◌≡◌, ◌-◌, replicate};
ghost use Rattle.base.specs.Blit.{blit};

use puts::zero;

// Zeros from at on, up to an index; past the end they are lost.
pub fn gap(out: &mut [u8], at: usize, to: usize)
    ensures { out.new ≡ blit at (replicate (to - at) 0) out.old }
{
    zero(out, at, to.saturating_sub(at) as u64);
}
