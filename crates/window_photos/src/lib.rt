// A channel's references to attachments, led to the moved ones, laid over a window of the file.
#![tactic(auto)]

ghost use Rattle.std.specs.Prelude.{◌≡◌, ◌+◌, ◌≤◌, length};
ghost use Rattle.base.specs.Blit.{blit};
ghost use Rattle.plan.specs.Photos.{links_from};
ghost use Rattle.result.specs.Fill.{words, moved_to, photo_links};
ghost use Rattle.window_copies.specs.Attachments.{attachments_in};
ghost use Rattle.stores.specs.Over.{over};
ghost use Rattle.window_photos.specs.Photos.{photos_from};

use blocks::block::link_at;
use puts::put_u64;
use windows::lay_u64;

// Where the attachment that stood at a is placed, 0 for none; there are so many, the first one's copies from copy number metadata on.
fn sought(memo: &[u64], metadata: u64, attached: u64, a: u64) -> u64
    requires { (attached ≤ 64) × (8192 ≤ length memo.now) }
    ensures { result ≡ moved_to a (attachments_in memo.now metadata attached) }
{
    for i in 0..attached {
        let p = (4100 + 3 * i) as usize;
        if memo[p] == a {
            return memo[p + 1];
        }
    }
    0
}

// The same of any words, where there are as many as it takes.
pub fn moved_to(memo: &[u64], metadata: u64, attached: u64, a: u64) -> u64
    ensures { attached ≤ 64 → 8192 ≤ length memo.now → result ≡ moved_to a (attachments_in memo.now metadata attached) }
{
    if 64 < attached {
        return 0;
    }
    if memo.len() < 8192 {
        return 0;
    }
    sought(memo, metadata, attached, a)
}

// The references of the CN at c, which has n, from number from on, at index at of w.
fn put_photos(
    w: &mut [u8],
    at: usize,
    image: &[u8],
    memo: &[u64],
    metadata: u64,
    attached: u64,
    c: u64,
    from: u64,
    n: u64,
)
    requires { (n ≤ 65535) × (attached ≤ 64) × (8192 ≤ length memo.now) }
    ensures { w.new ≡ blit at (photos_from image.now (attachments_in memo.now metadata attached) c from n)
        w.old }
{
    if w.len() <= at {
        return;
    }
    let mut p = at;
    for i in from..n {
        let a = link_at(image, c, 8 + i);
        let to = sought(memo, metadata, attached, a);
        put_u64(w, p, to);
        if w.len() - p <= 8 {
            return;
        }
        p += 8;
    }
}

// The n references of the CN at c, which stand at index at of the file, over a window that begins at a. Only those in the window are looked up.
fn lay_known(
    w: &mut [u8],
    a: u64,
    at: u64,
    image: &[u8],
    memo: &[u64],
    metadata: u64,
    attached: u64,
    c: u64,
    n: u64,
)
    requires { (n ≤ 65535) × (attached ≤ 64) × (8192 ≤ length memo.now) }
    ensures { w.new ≡ over a at (words (photo_links (attachments_in memo.now metadata attached)
        (links_from image.now n (c + 88)))) w.old }
{
    if a <= at {
        put_photos(
            w,
            (at - a) as usize,
            image,
            memo,
            metadata,
            attached,
            c,
            0,
            n,
        );
        return;
    }
    let skip = a - at;
    let i = skip / 8;
    if n <= i {
        return;
    }
    let x = link_at(image, c, 8 + i);
    let to = moved_to(memo, metadata, attached, x);
    lay_u64(w, skip % 8, 0, to);
    put_photos(
        w,
        (8 - skip % 8) as usize,
        image,
        memo,
        metadata,
        attached,
        c,
        i + 1,
        n,
    );
}

// The same of any words; nothing where they are too few, or the references or attachments too many.
pub fn lay_photos(
    w: &mut [u8],
    a: u64,
    at: u64,
    image: &[u8],
    memo: &[u64],
    metadata: u64,
    attached: u64,
    c: u64,
    n: u64,
)
    ensures { n ≤ 65535 → attached ≤ 64 → 8192 ≤ length memo.now
        → w.new ≡ over a at (words (photo_links (attachments_in memo.now metadata attached)
        (links_from image.now n (c + 88)))) w.old }
{
    if 65535 < n || 64 < attached || memo.len() < 8192 {
        return;
    }
    lay_known(w, a, at, image, memo, metadata, attached, c, n);
}
