// The cells of records at equal distances over a window.
ghost use Rattle.std.specs.Prelude.{true, false, ◌≡◌, ◌+◌, ◌≤◌, ◌<◌};
ghost use Rattle.window_cells.specs.Stretch.{Lain, further_of, passed_of, LaysRun, LaysStretch};

use crate::cell::lay_cell;
use cells::cell::Shape;
use cells::run::{product_within, put_stretch};
use joined::spot::begin;

// n records, the first at an offset of the joined data, the others a stride apart; the first one's cell stands at index at of the file.
#[derive(Clone, Copy)]
pub struct Run {
    pub at: u64,
    pub first: u64,
    pub stride: u64,
    pub n: u64,
}

// Whether the numbers of a run agree: it has records, its cells have bytes, and the indices of both are numbers.
fn is_laid(h: Shape, r: Run) -> bool
    ensures { (result ≡ true → Lain h r) × (Lain h r → result ≡ true) }
{
    r.n != 0
        && h.width != 0
        && product_within(r.n, h.width, u64::MAX - r.at)
        && product_within(r.n - 1, r.stride, u64::MAX - r.first)
}

// The records past the first i.
fn further(h: Shape, r: Run, i: u64) -> Run
    requires { Lain h r × (i < r.n) }
    ensures { result ≡ further_of h r i }
{
    Run {
        at: r.at + i * h.width,
        first: r.first + i * r.stride,
        stride: r.stride,
        n: r.n - i,
    }
}

// How many cells of w bytes from index at on lie before a.
fn passed(a: u64, at: u64, w: u64) -> u64
    requires { 0 < w }
    ensures { result ≡ passed_of a at w }
{
    a.saturating_sub(at) / w
}

// The cells of a run that begins in the window or past it: those that lie whole in it, and the one that is cut off at its end.
fn lay_rest(w: &mut [u8], a: u64, image: &[u8], fragments: &[u64], h: Shape, r: Run)
    requires { Lain h r × (a ≤ r.at) }
    ensures { LaysRun image.now fragments.now h a r w.old w.new }
{
    let room = w.len() as u64;
    let to = r.at - a;
    if room <= to {
        return;
    }
    let m = (room - to) / h.width;
    if r.n <= m {
        put_stretch(
            w,
            to as usize,
            image,
            fragments,
            h,
            r.first,
            r.stride,
            r.n,
            begin(),
        );
        return;
    }
    if m == 0 {
        lay_cell(w, a, r.at, image, fragments, h, r.first);
        return;
    }
    let t = further(h, r, m);
    put_stretch(
        w,
        to as usize,
        image,
        fragments,
        h,
        r.first,
        r.stride,
        m,
        begin(),
    );
    lay_cell(w, a, t.at, image, fragments, h, t.first);
}

// Of a run that begins before the window, its first cell not wholly: that cell, and the others.
fn lay_cut(w: &mut [u8], a: u64, image: &[u8], fragments: &[u64], h: Shape, r: Run)
    requires { Lain h r × (a ≤ r.at + h.width) }
    ensures { LaysRun image.now fragments.now h a r w.old w.new }
{
    if r.n == 1 {
        lay_cell(w, a, r.at, image, fragments, h, r.first);
        return;
    }
    let t = further(h, r, 1);
    lay_cell(w, a, r.at, image, fragments, h, r.first);
    lay_rest(w, a, image, fragments, h, t);
}

// The cells of a run.
pub fn lay_stretch(w: &mut [u8], a: u64, image: &[u8], fragments: &[u64], h: Shape, r: Run)
    ensures { LaysStretch image.now fragments.now h a r w.old w.new }
{
    if !is_laid(h, r) {
        return;
    }
    let i = passed(a, r.at, h.width);
    if r.n <= i {
        return;
    }
    let t = further(h, r, i);
    if a <= t.at {
        lay_rest(w, a, image, fragments, h, t);
        return;
    }
    lay_cut(w, a, image, fragments, h, t);
}
