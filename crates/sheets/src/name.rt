// The name of a channel.
ghost use Rattle.std.specs.Prelude.{◌≡◌, ◌+◌, ◌≤◌, length};
ghost use Rattle.sheet.specs.Sheet.{left_in, printable, name_of};
ghost use Rattle.sheets.specs.Name.{shown_text};
ghost use Rattle.sheets.specs.Piece.{Piece};

use crate::field::{fill, put_dash};
use blocks::block::link_at;
use fields::field_at;
use puts::put_u8;
use sharing::text::{text_bytes, text_kind};

// How a byte prints.
fn shown(b: u64) -> u64
    ensures { result ≡ printable b }
{
    if b < 32 || 126 < b {
        return 63;
    }
    b
}

// n bytes of the image from an index on, up to a zero byte, at the left of 32 characters.
fn put_shown(lines: &mut [u8], at: usize, image: &[u8], from: u64, n: u64)
    requires { (at ≤ 65536) × (n ≤ 32) × (from + n ≤ length image.now) }
    ensures { Piece at (left_in 32 (shown_text image.now from n)) 32 lines.old lines.new }
{
    let count = n as usize;
    for k in 0..count {
        let b = field_at::<1>(image, from + k as u64);
        if b == 0 {
            fill(lines, at + k, 32 - k, b' ');
            return;
        }
        put_u8(lines, at + k, shown(b));
    }
    fill(lines, at + count, 32 - count, b' ');
}

// The name of the CN at c in 32 characters.
pub(crate) fn put_name(lines: &mut [u8], at: usize, image: &[u8], c: u64)
    requires { at ≤ 65536 }
    ensures { Piece at (left_in 32 (name_of image.now c)) 32 lines.old lines.new }
{
    let a = link_at(image, c, 2);
    if text_kind(image, a) == 0 {
        put_dash(lines, at, 32);
        return;
    }
    let n = text_bytes(image, a).min(32);
    if n == 0 {
        fill(lines, at, 32, b' ');
        return;
    }
    put_shown(lines, at, image, a + 24, n);
}
