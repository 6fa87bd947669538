// Every column's DG, CG, CN and DL, laid over a window of the file that begins at index a. What lies before the window is left out, what lies past its
// end is lost.
#![tactic(auto)]

mod column;

ghost use Rattle.std.specs.Prelude.{◌≡◌, true, false, List, ℕ, ◌+◌, ◌*◌, ◌≤◌, ◌<◌, length, get_or};
ghost use Rattle.std.specs.Option.{unwrap_or};
ghost use Rattle.work_words.specs.CopyWords.{placed_at};
ghost use Rattle.plan.specs.Copies.{Copy, Attachment};
ghost use Rattle.copier.specs.Standing.{copies_in};
ghost use Rattle.result.specs.Ordered.{Ordered};
ghost use Rattle.windows.specs.Windowed.{over_all};
ghost use Rattle.window_blocks.specs.Apart.{Apart};
ghost use Rattle.window_copies.specs.Attachments.{attachments_in};
ghost use Rattle.writing.specs.Structure.{on_table, Near, Bounded};
ghost use Rattle.window_structure.specs.Laying.{structure_in, Begun, Laying};

use crate::column::{Copied, lay_column, lay_column_dl};
use copier::memo::index_copies;
use window_blocks::apart;
use writing::placed::{PlacedColumn, column_at, place_after};

// Whether a column's DG, CG or CN has a byte in the window of so many bytes from a on.
fn lies(room: usize, a: u64, h: PlacedColumn) -> bool
    requires { Bounded h }
    ensures { result ≡ false → Apart room a h.dg (336 + 8 * h.photos) }
{
    !apart(room, a, h.dg, 336 + 8 * h.photos)
}

// Of n columns whose DGs' places ascend, the last whose DG begins by index a, 0 where there is none: what is before it ends by a.
fn near(a: u64, memo: &[u64], n: u64) -> u64
    requires { (n ≤ 512) × (8192 ≤ length memo.now) }
    ensures { Begun memo.now n a result }
{
    let mut low = 0;
    let mut high = n;
    while low + 1 < high {
        let mid = (low + high) / 2;
        if memo[(6656 + 3 * mid) as usize] <= a {
            low = mid;
        } else {
            high = mid;
        }
    }
    low
}

// Whether column k's DG begins past a window of so many bytes from a on.
fn past(room: usize, a: u64, memo: &[u64], k: u64) -> bool
    requires { (k < 512) × (8192 ≤ length memo.now) }
    ensures { result ≡ true → a + room ≤ get_or memo.now (placed_at + 3 * k) 0 }
{
    let dg = memo[(6656 + 3 * k) as usize];
    a <= dg && room as u64 <= dg - a
}

// The columns up to the first that has a byte of its DG, CG or CN in the window, of n: their DLs. The number of that one, if there is one.
fn lay_passed(
    w: &mut [u8],
    a: u64,
    image: &[u8],
    photos: bool,
    table: &[u8],
    size: u64,
    columns: &[u64],
    memo: &[u64],
    n: u64,
) -> Option<u64>
    requires { (n ≤ 512) × (8192 ≤ length memo.now) }
    ensures { (m : List Copy) (ats : List Attachment) (g : List ℕ) → Near memo.now n → 4096 ≤ length columns.now
        → Laying photos (on_table table.now) image.now size columns.now memo.now n a m ats g 0 w.old
        → Laying photos (on_table table.now) image.now size columns.now memo.now n a m ats g (unwrap_or result n) w.new }
{
    for k in near(a, memo, n)..n {
        if past(w.len(), a, memo, k) {
            return None;
        }
        let h = column_at(image, photos, table, size, columns, memo, n, k);
        if lies(w.len(), a, h) {
            return Some(k);
        }
        lay_column_dl(w, a, h);
    }
    None
}

// The columns from number first on, of n, by the index of copies.
fn lay_columns(
    w: &mut [u8],
    a: u64,
    image: &[u8],
    photos: bool,
    table: &[u8],
    size: u64,
    columns: &[u64],
    copied: &Copied<'_>,
    n: u64,
    first: u64,
)
    requires { n ≤ 512 }
    ensures { (g : List ℕ) → Near copied.now.memo.now n → 4096 ≤ length columns.now
        → Laying photos (on_table table.now) image.now size columns.now copied.now.memo.now n a
        (copies_in copied.now.memo.now copied.now.used)
        (attachments_in copied.now.memo.now copied.now.metadata copied.now.attached) g first w.old → w.new ≡ g }
{
    let memo = copied.memo;
    for k in first..n {
        if past(w.len(), a, memo, k) {
            return;
        }
        let h = column_at(image, photos, table, size, columns, memo, n, k);
        let next = place_after(memo, n, k);
        lay_column(w, a, image, copied, h, next);
    }
}

// The blocks of n columns, whose words columns and memo have, where they stand in order: of the columns that may have a byte in the window. The index of
// copies is made where one has a DG, CG or CN there; nothing is laid where the words aren't there.
pub fn lay_structure(
    w: &mut [u8],
    a: u64,
    image: &[u8],
    photos: bool,
    table: &[u8],
    size: u64,
    columns: &[u64],
    memo: &[u64],
    n: u64,
    used: u64,
    metadata: u64,
    attached: u64,
)
    ensures { Near memo.now n → 4096 ≤ length columns.now → attached ≤ 64 → (at room : ℕ)
        → Ordered at (structure_in photos table.now image.now size columns.now memo.now n used metadata attached) room
        → w.new ≡ over_all a (structure_in photos table.now image.now size columns.now memo.now n used metadata
        attached) w.old }
{
    if 512 < n || 64 < attached || memo.len() < 8192 {
        return;
    }
    let Some(first) = lay_passed(w, a, image, photos, table, size, columns, memo, n) else {
        return;
    };
    let copied = Copied {
        memo,
        index: &index_copies(memo, used),
        used,
        metadata,
        attached,
    };
    lay_columns(w, a, image, photos, table, size, columns, &copied, n, first);
}
