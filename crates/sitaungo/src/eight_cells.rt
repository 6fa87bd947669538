// Up to eight conversions in steps on one machine: what each gets of a pass, and so many steps in one call.
ghost use Rattle.std.specs.Prelude.{◌+◌, ◌*◌, ◌≤◌, length};
ghost use Rattle.passes.specs.Passes.{shared};
ghost use Rattle.shares.specs.Eights.{list_of, jobs_from, SharedAs};
ghost use Rattle.steps.specs.Conversion.{call_of};
ghost use Rattle.steps.specs.Steps.{Holds, lent};
ghost use Rattle.advancing.specs.Advances.{Advances, BoundedBy};

use advancing::advance;
use shares::{Eight, Shares, share};
use steps::conversion::Conversion;

// The stores that each of so many jobs gets of a pass: `share` of the crate shares.
#[unsafe(no_mangle)]
pub extern "C" fn sitaungo_share(stores: u64, jobs: u64, caps: Eight, left: Eight) -> Shares
    ensures { SharedAs (shared stores (jobs_from (list_of caps) (list_of left) 0 jobs)) result }
{
    share(stores, jobs, caps, left)
}

// So many stores over the file, or as many as are left, and with the last the list: `advance` of the crate advancing.
#[unsafe(no_mangle)]
pub extern "C" fn sitaungo_advance(
    conversion: Conversion,
    stores: u64,
    image: &[u8],
    ident: &[u8],
    text: &[u8],
    types: &[u8],
    source: &mut [u64],
    fragments: &mut [u64],
    columns: &mut [u64],
    copies: &mut [u64],
    stretches: &mut [u64],
    offsets: &mut [u64],
    file: &mut [u8],
    list: &mut [u64],
) -> Conversion
    ensures right { Holds (call_of conversion image.now ident.now text.now types.now) conversion
        source.old fragments.old columns.old copies.old stretches.old offsets.old
        → conversion.file_size ≤ length file.old → 2 * conversion.omissions + 1 ≤ length list.old
        → Advances (call_of conversion image.now ident.now text.now types.now) conversion stores file.old list.old result
        source.new fragments.new columns.new copies.new stretches.new offsets.new
        file.new list.new }
    ensures bounded { BoundedBy stores conversion result file.old file.new list.old list.new
        (lent source.old fragments.old columns.old copies.old stretches.old offsets.old)
        (lent source.new fragments.new columns.new copies.new stretches.new offsets.new) }
{
    advance(
        conversion, stores, image, ident, text, types, source, fragments, columns, copies,
        stretches, offsets, file, list,
    )
}
