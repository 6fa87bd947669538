// Equal bytes of an image.
ghost use Rattle.std.specs.Prelude.{◌≡◌, ◌+◌, ◌≤◌, length};
ghost use Rattle.base.specs.Blit.{part};
ghost use Rattle.result.specs.Sharing.{same};

// The n bytes from p on are those from q on.
pub(crate) fn bytes_same(image: &[u8], p: usize, q: usize, n: usize) -> bool
    requires { (p + n ≤ length image.now) × (q + n ≤ length image.now) }
    ensures { result ≡ same (part p n image.now) (part q n image.now) }
{
    image[p..p + n] == image[q..q + n]
}

// The n bytes from p on are those from q on, if both lie in the image.
pub fn parts_same(image: &[u8], p: u64, q: u64, n: u64) -> bool
    ensures { p + n ≤ length image.now → q + n ≤ length image.now
        → result ≡ same (part p n image.now) (part q n image.now) }
{
    let size = image.len() as u64;
    if size < n || size - n < p || size - n < q {
        return false;
    }
    bytes_same(image, p as usize, q as usize, n as usize)
}
