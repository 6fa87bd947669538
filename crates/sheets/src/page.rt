// Headings, pages, all pages.
ghost use Rattle.std.specs.Prelude.{◌≡◌, ◌++◌, ◌+◌, ◌*◌, ◌≤◌};
ghost use Rattle.ranges.specs.Open.{columns_of};
ghost use Rattle.texts.specs.Laid.{Laid};
ghost use Rattle.sheet.specs.Sheet.{ascii, sheet_lines, heading, page_count, page_of, pages, lines_text, pages_text};
ghost use Rattle.sheets.specs.Piece.{Piece};

use crate::field::fill;
use crate::line::put_line;
use puts::put_u8;
use texts::{put_decimal, put_text};

// The heading of page p of n, with its newline.
fn put_heading(lines: &mut [u8], at: usize, p: u64, n: u64)
    requires { at ≤ 60000 }
    ensures { Piece at (heading p n ++ ascii "\n") 81 lines.old lines.new }
{
    let mut end = at + put_text(lines, at, b"page ");
    end += put_decimal(lines, end, p);
    end += put_text(lines, end, b" of ");
    end += put_decimal(lines, end, n);
    fill(lines, end, at + 80 - end, b' ');
    put_u8(lines, at + 80, 10);
}

// The lines of count columns from number first on, of n.
fn put_lines(
    lines: &mut [u8],
    at: usize,
    image: &[u8],
    source: &[u64; 4096],
    n: u64,
    first: u64,
    count: u64,
)
    requires { (at + 81 * count ≤ 60000) × (n ≤ 512) × (first + count ≤ n) }
    ensures { Piece at (lines_text (sheet_lines image.now (columns_of image.now source.now n 0) first
        (columns_of image.now source.now count first))) (81 * count) lines.old lines.new }
{
    let mut p = at;
    for k in first..first + count {
        put_line(lines, p, image, source, n, k);
        p += 81;
    }
}

// Page i of so many, from 0, of n columns; answers the index past it.
fn put_page(
    lines: &mut [u8],
    at: usize,
    image: &[u8],
    source: &[u64; 4096],
    n: u64,
    pages: u64,
    i: u64,
) -> usize
    requires { (at ≤ 50000) × (n ≤ 512) × (59 * i ≤ n) }
    ensures { Laid at (lines_text (page_of image.now (columns_of image.now source.now n 0) pages i)) 4860
        lines.old lines.new result }
{
    let first = 59 * i;
    let count = (n - first).min(59);
    put_heading(lines, at, i + 1, pages);
    put_lines(lines, at + 81, image, source, n, first, count);
    at + 81 + 81 * count as usize
}

// How many pages n columns have.
fn page_count(n: u64) -> u64
    requires { n ≤ 512 }
    ensures { result ≡ page_count n }
{
    if n == 0 {
        return 1;
    }
    (n + 58) / 59
}

// All pages of n columns; answers how many bytes they have.
pub(crate) fn put_pages(lines: &mut [u8], image: &[u8], source: &[u64; 4096], n: u64) -> usize
    requires { n ≤ 512 }
    ensures { Laid 0 (pages_text (pages image.now (columns_of image.now source.now n 0))) 42201
        lines.old lines.new result }
{
    let all = page_count(n);
    let mut p: usize = 0;
    for i in 0..all {
        p = put_page(lines, p, image, source, n, all, i);
    }
    p
}
