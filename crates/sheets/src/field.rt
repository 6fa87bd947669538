// Fields of so many characters, and blanks.
ghost use Rattle.std.specs.Prelude.{◌+◌, ◌≤◌, replicate};
ghost use Rattle.sheet.specs.Sheet.{ascii, left_in, right_in};
ghost use Rattle.sheets.specs.Piece.{Piece};

use puts::{copy, put_u8};
use texts::put_decimal;

// A byte b, n times.
pub(crate) fn fill(lines: &mut [u8], at: usize, n: usize, b: u8)
    requires { at + n ≤ 1048576 }
    ensures { Piece at (replicate n b) n lines.old lines.new }
{
    for p in at..at + n {
        put_u8(lines, p, b as u64);
    }
}

// `-` at the left of w characters.
pub(crate) fn put_dash(lines: &mut [u8], at: usize, w: usize)
    requires { (at ≤ 65536) × (1 ≤ w) × (w ≤ 80) }
    ensures { Piece at (left_in w (ascii "-")) w lines.old lines.new }
{
    put_u8(lines, at, 45);
    fill(lines, at + 1, w - 1, b' ');
}

// A number at the right of w characters; one too wide fills them with `#`.
pub(crate) fn put_right(lines: &mut [u8], at: usize, w: usize, n: u64)
    requires { (at ≤ 65536) × (w ≤ 80) }
    ensures { Piece at (right_in w n) w lines.old lines.new }
{
    let mut digits = [0u8; 20];
    let count = put_decimal(&mut digits, 0, n);
    if w < count {
        fill(lines, at, w, b'#');
        return;
    }
    let blanks = w - count;
    fill(lines, at, blanks, b' ');
    copy(lines, at + blanks, &digits, 0, count as u64);
}
