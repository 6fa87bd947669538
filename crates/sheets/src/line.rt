// The line of a column, of a file whose columns stand in words as opening left them: DG, CG and CN of column k at words 3k, 3k + 1 and 3k + 2.
ghost use Rattle.std.specs.Prelude.{◌≡◌, List, ◌++◌, ℕ, ◌≤◌, ◌<◌};
ghost use Rattle.ranges.specs.Open.{column_at, columns_of};
ghost use Rattle.sheet.specs.Sheet.{ascii, number_at, master_of, master_in, sheet_line};
ghost use Rattle.sheets.specs.Piece.{Piece};
ghost use Rattle.sheets.specs.Line.{found_as, KindOf, front_text, sizes_text};

use crate::field::{put_dash, put_right};
use crate::name::put_name;
use channels::{is_master_type, samples_of};
use planning::masters::remote_link;
use puts::put_u8;
use ranges::form::cycles_of;

// The number of the column, of n, whose CG stands at a.
fn number_at(source: &[u64; 4096], n: u64, a: u64) -> Option<u64>
    requires { n ≤ 512 }
    ensures { (s : List ℕ) → found_as result ≡ number_at a 0 (columns_of s source.now n 0) }
{
    for k in 0..n {
        if source[3 * k as usize + 1] == a {
            return Some(k);
        }
    }
    None
}

// The master's column of the group at g, among n columns.
pub fn master_of(image: &[u8], source: &[u64; 4096], n: u64, g: u64) -> Option<u64>
    ensures { n ≤ 512 → found_as result ≡ master_of image.now (columns_of image.now source.now n 0) g }
{
    let link = remote_link(image, g);
    if link == 0 || 512 < n {
        return None;
    }
    number_at(source, n, link)
}

// In 10 characters.
fn put_master(lines: &mut [u8], at: usize, image: &[u8], source: &[u64; 4096], n: u64, g: u64)
    requires { (at ≤ 65536) × (n ≤ 512) }
    ensures { Piece at (master_in (master_of image.now (columns_of image.now source.now n 0) g)) 10
        lines.old lines.new }
{
    match master_of(image, source, n, g) {
        Some(number) => put_right(lines, at, 10, number),
        None => put_dash(lines, at, 10),
    }
}

// `t` for type 2 or 3, else `s`.
fn kind_of(image: &[u8], c: u64) -> u64
    ensures { KindOf image.now c result }
{
    if is_master_type(image, c) {
        return 116;
    }
    115
}

// Number k and kind, each with a blank behind it: 11 characters.
fn put_front(lines: &mut [u8], at: usize, image: &[u8], k: u64, c: u64)
    requires { at ≤ 65000 }
    ensures { Piece at (front_text image.now k c) 11 lines.old lines.new }
{
    let kind = kind_of(image, c);
    put_right(lines, at, 8, k);
    put_u8(lines, at + 8, 32);
    put_u8(lines, at + 9, kind);
    put_u8(lines, at + 10, 32);
}

// Data bytes and records of the group at g, with a blank between them: 25 characters.
fn put_sizes(lines: &mut [u8], at: usize, image: &[u8], g: u64)
    requires { at ≤ 65000 }
    ensures { Piece at (sizes_text image.now g) 25 lines.old lines.new }
{
    let bytes = samples_of(image, g);
    let records = cycles_of(image, g);
    put_right(lines, at, 12, bytes);
    put_u8(lines, at + 12, 32);
    put_right(lines, at + 13, 12, records);
}

// The line of column k, of n, with its newline: 81 characters.
pub(crate) fn put_line(
    lines: &mut [u8],
    at: usize,
    image: &[u8],
    source: &[u64; 4096],
    n: u64,
    k: u64,
)
    requires { (at ≤ 60000) × (n ≤ 512) × (k < n) }
    ensures { Piece at (sheet_line image.now (columns_of image.now source.now n 0) k
        (column_at image.now source.now k) ++ ascii "\n") 81 lines.old lines.new }
{
    let i = 3 * k as usize;
    let g = source[i + 1];
    let c = source[i + 2];
    put_front(lines, at, image, k, c);
    put_name(lines, at + 11, image, c);
    put_u8(lines, at + 43, 32);
    put_sizes(lines, at + 44, image, g);
    put_u8(lines, at + 69, 32);
    put_master(lines, at + 70, image, source, n, g);
    put_u8(lines, at + 80, 10);
}
