// The lines of columns and omissions, out of the words in which planning keeps them.
ghost use Rattle.std.specs.Prelude.{◌≡◌, ◌+◌, ◌*◌, ◌≤◌, ◌<◌};
ghost use Rattle.texts.specs.Laid.{Laid};
ghost use Rattle.listing.specs.Lines.{line_front, line_sizes, bytes_at, line_amounts, line_in, lines_in, omission_in, omissions_in};
ghost use Rattle.listing.specs.Lines.{Letter, master_of, columns_part, omissions_part, plan_in, AllCount};
ghost use Rattle.plan.specs.Channel.{keeps_inval};
ghost use Rattle.result.specs.Fill.{one};

use crate::text::{put_decimal, put_number};
use channels::{block_count, channel_bytes, keeps_inval, width_of};
use copier::columns::word;
use planning::sizes::signal_size;
use texts::{put_byte, put_text};

// What the lines of a plan are taken from: the image, the block size, and the words of columns and of fragments.
#[derive(Clone, Copy)]
pub(crate) struct Plan<'a> {
    pub(crate) image: &'a [u8],
    pub(crate) size: u64,
    pub(crate) columns: &'a [u64],
    pub(crate) fragments: &'a [u64],
}

// The letter of a column, by the word of its time: `t` for a time column, `s` for a signal column.
fn letter(time: u64) -> u8
    ensures { Letter time result }
{
    if time == 1 { b't' } else { b's' }
}

// The number of column k and its letter.
fn put_front(lines: &mut [u8], at: usize, columns: &[u64], k: u64) -> usize
    requires { (at ≤ 1125899906842624) × (k ≤ 512) }
    ensures { Laid at (line_front columns.now k) 23 lines.old lines.new result }
{
    let mark = letter(word(columns, 8 * k + 4));
    let p = put_number(lines, at, k, b' ');
    let q = p + put_byte(lines, p, mark);
    q + put_byte(lines, q, b' ')
}

// 1 where the invalidation bit of the channel at cn is kept.
fn inval_byte(image: &[u8], cg: u64, cn: u64) -> u64
    ensures { result ≡ one (keeps_inval image.now cg cn) }
{
    if keeps_inval(image, cg, cn) { 1 } else { 0 }
}

// Its data bytes and its invalidation byte.
fn put_sizes(lines: &mut [u8], at: usize, plan: Plan, k: u64) -> usize
    requires { (at ≤ 1125899906842624) × (k ≤ 512) }
    ensures { Laid at (line_sizes plan.entry.image.now plan.entry.columns.now k) 42 lines.old lines.new result }
{
    let cn = word(plan.columns, 8 * k);
    let cg = word(plan.columns, 8 * k + 1);
    let bytes = channel_bytes(plan.image, cn);
    let inval = inval_byte(plan.image, cg, cn);
    let p = put_number(lines, at, bytes, b' ');
    put_number(lines, p, inval, b' ')
}

// Its payload bytes and those of its signal data.
fn bytes_of(plan: Plan, k: u64) -> u64
    requires { (k ≤ 512) × (bytes_at plan.image.now plan.columns.now plan.fragments.now k < 18446744073709551616) }
    ensures { result ≡ bytes_at plan.entry.image.now plan.entry.columns.now plan.entry.fragments.now k }
{
    let cn = word(plan.columns, 8 * k);
    let cg = word(plan.columns, 8 * k + 1);
    let records = word(plan.columns, 8 * k + 3);
    let payload = width_of(plan.image, cg, cn) * records;
    let first = word(plan.columns, 8 * k + 6);
    let n = word(plan.columns, 8 * k + 7);
    payload + signal_size(plan.fragments, first, n)
}

// Its records, data blocks and bytes.
fn put_amounts(lines: &mut [u8], at: usize, plan: Plan, k: u64) -> usize
    requires { (at ≤ 1125899906842624) × (k ≤ 512) × (bytes_at plan.image.now plan.columns.now plan.fragments.now k < 18446744073709551616) }
    ensures { Laid at (line_amounts plan.entry.image.now plan.entry.size plan.entry.columns.now plan.entry.fragments.now k) 63 lines.old lines.new result }
{
    let cn = word(plan.columns, 8 * k);
    let cg = word(plan.columns, 8 * k + 1);
    let records = word(plan.columns, 8 * k + 3);
    let width = width_of(plan.image, cg, cn);
    let blocks = block_count(plan.size, width, records);
    let bytes = bytes_of(plan, k);
    let p = put_number(lines, at, records, b' ');
    let q = put_number(lines, p, blocks, b' ');
    put_number(lines, q, bytes, b' ')
}

// The master's column, by its word, or `-`.
fn put_master(lines: &mut [u8], at: usize, master: u64) -> usize
    requires { at ≤ 1125899906842624 }
    ensures { Laid at (master_of master) 20 lines.old lines.new result }
{
    if master == 0 {
        return at + put_byte(lines, at, b'-');
    }
    put_decimal(lines, at, master - 1)
}

// The line of column k.
pub(crate) fn put_column_line(lines: &mut [u8], at: usize, plan: Plan, k: u64) -> usize
    requires { (at ≤ 281474976710656) × (k ≤ 512) × (bytes_at plan.image.now plan.columns.now plan.fragments.now k < 18446744073709551616) }
    ensures { Laid at (line_in plan.entry.image.now plan.entry.size plan.entry.columns.now plan.entry.fragments.now k) 149 lines.old lines.new result }
{
    let master = word(plan.columns, 8 * k + 5);
    let p = put_front(lines, at, plan.columns, k);
    let q = put_sizes(lines, p, plan, k);
    let t = put_amounts(lines, q, plan, k);
    let u = put_master(lines, t, master);
    u + put_byte(lines, u, b'\n')
}

// The lines of n columns.
pub(crate) fn put_column_lines(lines: &mut [u8], at: usize, plan: Plan, n: u64) -> usize
    requires { (at ≤ 17592186044416) × (n ≤ 512) × AllCount plan.image.now plan.columns.now plan.fragments.now n }
    ensures { Laid at (lines_in plan.entry.image.now plan.entry.size plan.entry.columns.now plan.entry.fragments.now 0 n) (149 * n) lines.old lines.new result }
{
    let mut p = at;
    for k in 0..n {
        p = put_column_line(lines, p, plan, k);
    }
    p
}

// The line of the omission whose words stand from i on.
fn put_omission_line(lines: &mut [u8], at: usize, columns: &[u64], i: u64) -> usize
    requires { (at ≤ 281474976710656) × (i ≤ 8192) }
    ensures { Laid at (omission_in columns.now i) 42 lines.old lines.new result }
{
    let address = word(columns, i);
    let reason = word(columns, i + 1);
    let p = put_number(lines, at, address, b' ');
    put_number(lines, p, reason, b'\n')
}

// The lines of n omissions.
pub(crate) fn put_omission_lines(lines: &mut [u8], at: usize, columns: &[u64], n: u64) -> usize
    requires { (at ≤ 17592186044416) × (n ≤ 1024) }
    ensures { Laid at (omissions_in columns.now 4096 n) (42 * n) lines.old lines.new result }
{
    let mut p = at;
    for k in 0..n {
        p = put_omission_line(lines, p, columns, 4096 + 2 * k);
    }
    p
}

// `columns`, their number, and their lines.
fn put_columns(lines: &mut [u8], at: usize, plan: Plan, n: u64) -> usize
    requires { (at ≤ 2199023255552) × (n ≤ 512) × AllCount plan.image.now plan.columns.now plan.fragments.now n }
    ensures { Laid at (columns_part plan.entry.image.now plan.entry.size plan.entry.columns.now plan.entry.fragments.now n) (29 + 149 * n) lines.old lines.new result }
{
    let p = at + put_text(lines, at, b"columns ");
    let q = put_number(lines, p, n, b'\n');
    put_column_lines(lines, q, plan, n)
}

// `omitted`, their number, and their lines.
fn put_omissions(lines: &mut [u8], at: usize, columns: &[u64], n: u64) -> usize
    requires { (at ≤ 2199023255552) × (n ≤ 1024) }
    ensures { Laid at (omissions_part columns.now n) (29 + 42 * n) lines.old lines.new result }
{
    let p = at + put_text(lines, at, b"omitted ");
    let q = put_number(lines, p, n, b'\n');
    put_omission_lines(lines, q, columns, n)
}

// The listing of a plan of n columns and m omissions that stands in words.
pub(crate) fn put_plan_lines(lines: &mut [u8], at: usize, plan: Plan, n: u64, m: u64) -> usize
    requires { (at ≤ 1099511627776) × (n ≤ 512) × (m ≤ 1024) × AllCount plan.image.now plan.columns.now plan.fragments.now n }
    ensures { Laid at (plan_in plan.entry.image.now plan.entry.size plan.entry.columns.now plan.entry.fragments.now n m) 119354 lines.old lines.new result }
{
    let p = put_columns(lines, at, plan, n);
    put_omissions(lines, p, plan.columns, m)
}
