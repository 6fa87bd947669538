// A channel's references to attachments, led to the moved ones.
ghost use Rattle.std.specs.Prelude.{◌≡◌, ◌+◌, ◌≤◌, length};
ghost use Rattle.base.specs.Blit.{blit};
ghost use Rattle.plan.specs.Photos.{links_from};
ghost use Rattle.result.specs.Fill.{words, photo_links};
ghost use Rattle.window_copies.specs.Attachments.{attachments_in};

use window_photos::lay_photos;

// The n references of the CN at c, from index 88 on; nothing where they are too many.
pub fn put_photos(
    d: &mut [u8],
    image: &[u8],
    memo: &[u64],
    metadata: u64,
    attached: u64,
    c: u64,
    n: u64,
)
    ensures { n ≤ 65535 → attached ≤ 64 → 8192 ≤ length memo.now
        → d.new ≡ blit 88 (words (photo_links (attachments_in memo.now metadata attached)
        (links_from image.now n (c + 88)))) d.old }
{
    lay_photos(d, 0, 88, image, memo, metadata, attached, c, n);
}
