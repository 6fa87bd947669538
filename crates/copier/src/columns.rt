// The metadata of columns, out of the words in which planning keeps them.
ghost use Rattle.std.specs.Prelude.{◌≡◌, ◌≤◌, length, get_or};
ghost use Rattle.copier.specs.Standing.{standing, Ready};
ghost use Rattle.copier.specs.Got.{Copied, AfterGot};
ghost use Rattle.copier.specs.Index.{Indexed};
ghost use Rattle.copier.specs.Roots.{copies_of};

use crate::memo::{Copying, index_copies, is_ready};
use crate::roots::column_roots;
use fields::refusal::Refusal;

// Word i, 0 past the end.
pub fn word(w: &[u64], i: u64) -> u64
    ensures { result ≡ get_or w.now i 0 }
{
    w.get(i as usize).copied().unwrap_or(0)
}

// The blocks that n columns refer to, and all that they link to, in order.
fn copy_all(
    image: &[u8],
    columns: &[u64],
    n: u64,
    memo: &mut [u64],
    index: &mut [u16; 4096],
    most: u64,
    state: Copying,
) -> Result<Copying, Refusal>
    requires { Ready memo.old most state × (n ≤ 512) × Indexed memo.old state.used index.old }
    ensures copied { Copied memo.old memo.new result
        (copies_of most image.now columns.now 0 n (standing memo.old state)) }
    ensures after { AfterGot result state }
{
    let mut st = state;
    for k in 0..n {
        let p = 8 * k;
        let dg = word(columns, p + 2);
        let cg = word(columns, p + 1);
        let cn = word(columns, p);
        st = column_roots(image, memo, index, dg, cg, cn, most, st)?;
    }
    Ok(st)
}

// The same, with at most so many copies; 1 where copying can't begin (`Ready`), and for more than 512 columns.
pub fn copy_columns(
    image: &[u8],
    columns: &[u64],
    n: u64,
    memo: &mut [u64],
    most: u64,
    state: Copying,
) -> Result<Copying, Refusal>
    ensures copied { Ready memo.old most state → n ≤ 512
        → Copied memo.old memo.new result
        (copies_of most image.now columns.now 0 n (standing memo.old state)) }
    ensures after { Ready memo.old most state → n ≤ 512 → AfterGot result state }
{
    if !is_ready(memo, most, state) || 512 < n {
        return Err(Refusal::Arguments);
    }
    let mut index = index_copies(memo, state.used);
    copy_all(image, columns, n, memo, &mut index, most, state)
}
