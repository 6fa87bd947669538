// So many steps of a conversion in one call (document 02, request 12).
#![tactic(auto)]

ghost use Rattle.std.specs.Prelude.{◌+◌, ◌*◌, ◌≤◌, length};
ghost use Rattle.steps.specs.Conversion.{call_of};
ghost use Rattle.steps.specs.Steps.{Holds, lent};
ghost use Rattle.advancing.specs.Advances.{Advances, BoundedBy};

use steps::conversion::Conversion;
use steps::step::{left, step};

// So many stores, or as many as are left, each as `step` makes it. The slices are those of the call that began, the state is the one last returned.
pub fn advance(
    k: Conversion,
    stores: u64,
    image: &[u8],
    ident: &[u8],
    text: &[u8],
    table: &[u8],
    source: &mut [u64],
    fragments: &mut [u64],
    columns: &mut [u64],
    copies: &mut [u64],
    stretches: &mut [u64],
    offsets: &mut [u64],
    file: &mut [u8],
    list: &mut [u64],
) -> Conversion
    ensures right { Holds (call_of k image.now ident.now text.now table.now) k
        source.old fragments.old columns.old copies.old stretches.old offsets.old
        → k.file_size ≤ length file.old → 2 * k.omissions + 1 ≤ length list.old
        → Advances (call_of k image.now ident.now text.now table.now) k stores file.old list.old result
        source.new fragments.new columns.new copies.new stretches.new offsets.new
        file.new list.new }
    ensures bounded { BoundedBy stores k result file.old file.new list.old list.new
        (lent source.old fragments.old columns.old copies.old stretches.old offsets.old)
        (lent source.new fragments.new columns.new copies.new stretches.new offsets.new) }
{
    let n = stores.min(left(k));
    let mut r = k;
    for _ in 0..n {
        r = step(
            r, image, ident, text, table, source, fragments, columns, copies, stretches, offsets,
            file, list,
        );
    }
    r
}
