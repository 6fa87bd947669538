// A step.
ghost use Rattle.std.specs.Prelude.{◌≡◌, ◌+◌, ◌*◌, ◌-◌, ◌≤◌, ◌<◌, length};
ghost use Rattle.base.specs.Blit.{blit};
ghost use Rattle.writing.specs.Omissions.{listed};
ghost use Rattle.steps.specs.Conversion.{call_of, at_next};
ghost use Rattle.steps.specs.Steps.{Holds, Steps, Bounded, lent, all_cleared};

use crate::conversion::Conversion;
use crate::store::store;
use reading::recording::clear;
use writing::omissions::put_list;

// How many stores are left.
pub fn left(k: Conversion) -> u64
    ensures { result ≡ k.steps - k.next }
{
    k.steps.saturating_sub(k.next)
}

// The state after a store.
fn after(k: Conversion) -> Conversion
    requires { k.next < k.steps }
    ensures { result ≡ at_next k (k.next + 1) }
{
    Conversion {
        next: k.next + 1,
        ..k
    }
}

// The list of n omissions, then every word zero.
fn close(
    list: &mut [u64],
    n: u64,
    source: &mut [u64],
    fragments: &mut [u64],
    columns: &mut [u64],
    copies: &mut [u64],
    stretches: &mut [u64],
    offsets: &mut [u64],
)
    ensures right { 2 * n + 1 ≤ length list.old → 4096 + 2 * n ≤ length columns.old
        → list.new ≡ blit 0 (listed columns.old n) list.old }
    ensures cleared { lent source.new fragments.new columns.new copies.new stretches.new offsets.new
        ≡ all_cleared (lent source.old fragments.old columns.old copies.old stretches.old offsets.old) }
{
    put_list(list, columns, n);
    clear(source);
    clear(fragments);
    clear(columns);
    clear(copies);
    clear(stretches);
    clear(offsets);
}

// One store over the file; with the last the list, and every word is zero after it. After the last store nothing changes. The slices are those of
// the call that began, the state is the one last returned.
pub fn step(
    k: Conversion,
    image: &[u8],
    ident: &[u8],
    text: &[u8],
    table: &[u8],
    source: &mut [u64],
    fragments: &mut [u64],
    columns: &mut [u64],
    copies: &mut [u64],
    stretches: &mut [u64],
    offsets: &mut [u64],
    file: &mut [u8],
    list: &mut [u64],
) -> Conversion
    ensures right { Holds (call_of k image.now ident.now text.now table.now) k
        source.old fragments.old columns.old copies.old stretches.old offsets.old
        → k.file_size ≤ length file.old → 2 * k.omissions + 1 ≤ length list.old
        → Steps (call_of k image.now ident.now text.now table.now) k file.old list.old result
        source.new fragments.new columns.new copies.new stretches.new offsets.new
        file.new list.new }
    ensures bounded { Bounded k result file.old file.new list.old list.new
        (lent source.old fragments.old columns.old copies.old stretches.old offsets.old)
        (lent source.new fragments.new columns.new copies.new stretches.new offsets.new) }
{
    if k.steps <= k.next {
        return k;
    }
    store(
        file, k, image, ident, text, table, source, fragments, columns, copies, stretches, offsets,
    );
    let r = after(k);
    if r.next < k.steps {
        return r;
    }
    close(
        list,
        k.omissions,
        source,
        fragments,
        columns,
        copies,
        stretches,
        offsets,
    );
    r
}
