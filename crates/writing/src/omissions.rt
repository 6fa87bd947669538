// The list of channels left out: their number, their addresses, their reasons.
ghost use Rattle.std.specs.Prelude.{◌≡◌, ◌+◌, ◌*◌, ◌≤◌, length};
ghost use Rattle.base.specs.Blit.{blit};
ghost use Rattle.writing.specs.Omissions.{every_other, listed};

// n words of w from index i on, every second one, at index at of the list.
fn put_words(list: &mut [u64], at: usize, w: &[u64], i: usize, n: usize)
    requires { (at + n ≤ length list.old) × (i + 2 * n ≤ length w.now + 1) }
    ensures { list.new ≡ blit at (every_other w.now i n) list.old }
{
    for k in 0..n {
        list[at + k] = w[i + 2 * k];
    }
}

// The list of n omissions, which stand in the columns' words from 4096 on, two words each.
pub(crate) fn write_list(list: &mut [u64], columns: &[u64], n: usize)
    requires { (2 * n + 1 ≤ length list.old) × (4096 + 2 * n ≤ length columns.now) }
    ensures { list.new ≡ blit 0 (listed columns.now n) list.old }
{
    list[0] = n as u64;
    put_words(list, 1, columns, 4096, n);
    put_words(list, 1 + n, columns, 4097, n);
}

// The same of any words; where the list or the words are too short, nothing is written.
pub fn put_list(list: &mut [u64], columns: &[u64], n: u64)
    ensures { 2 * n + 1 ≤ length list.old → 4096 + 2 * n ≤ length columns.now
        → list.new ≡ blit 0 (listed columns.now n) list.old }
{
    let pairs = (columns.len() as u64).saturating_sub(4096) / 2;
    if pairs < n || columns.len() < 4096 || (list.len() as u64) < 2 * n + 1 {
        return;
    }
    write_list(list, columns, n as usize);
}
