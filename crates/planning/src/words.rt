// Columns and omissions in lent words: eight words a column from 0 on, two an omission from 4096 on.
ghost use Rattle.std.specs.Prelude.{◌≡◌, [], ◌∷◌, ◌+◌, ◌*◌, ◌<◌, get_or, set};
ghost use Rattle.base.specs.Blit.{blit};
ghost use Rattle.planning.specs.TimeIn.{is_time_in, time_in};

// Word i, 0 past the end.
pub fn word(w: &[u64], i: u64) -> u64
    ensures { result ≡ get_or w.now i 0 }
{
    w.get(i as usize).copied().unwrap_or(0)
}

// Word i set to x; one past the end is lost.
pub fn put(w: &mut [u64], i: u64, x: u64)
    ensures { w.new ≡ set w.old i x }
{
    let at = i as usize;
    if at < w.len() {
        w[at] = x;
    }
}

// Words from word i on; those past the end are lost.
pub fn put_words(w: &mut [u64], i: u64, words: &[u64])
    ensures { w.new ≡ blit i words.now w.old }
{
    let room = w.len() as u64;
    if room <= i {
        return;
    }
    for k in 0..words.len() {
        put(w, i + k as u64, words[k]);
    }
}

// The eight words of column k.
pub(crate) fn put_column(w: &mut [u64], k: u64, column: [u64; 8])
    requires { k < 16777216 }
    ensures { w.new ≡ blit (8 * k) column w.old }
{
    put_words(w, 8 * k, &column);
}

// Omission k.
pub(crate) fn put_omission(w: &mut [u64], k: u64, a: u64, reason: u64)
    requires { k < 16777216 }
    ensures { w.new ≡ blit (4096 + 2 * k) (a ∷ reason ∷ []) w.old }
{
    put_words(w, 4096 + 2 * k, &[a, reason]);
}

// Column k is the time column of the group at g.
fn is_time(w: &[u64], k: u64, g: u64) -> bool
    requires { k < 16777216 }
    ensures { result ≡ is_time_in w.now k g }
{
    word(w, 8 * k + 4) == 1 && word(w, 8 * k + 1) == g
}

// The time column of the group at g among the first n, and 1; 0 for none. Apart in the machine code, so that its loop has the registers.
#[inline(never)]
pub(crate) fn time_column(w: &[u64], n: u64, g: u64) -> u64
    requires { n < 16777216 }
    ensures { result ≡ time_in w.now g 0 n }
{
    for k in 0..n {
        if is_time(w, k, g) {
            return k + 1;
        }
    }
    0
}
