// Decimal numbers, laid over a lent slice from an index on; each answers the index past what it wrote.
ghost use Rattle.std.specs.Prelude.{◌≤◌};
ghost use Rattle.result.specs.Listing.{decimal};
ghost use Rattle.texts.specs.Laid.{Laid};
ghost use Rattle.listing.specs.Lines.{number_then};

use texts::put_byte;

// A number.
pub(crate) fn put_decimal(lines: &mut [u8], at: usize, n: u64) -> usize
    requires { at ≤ 1152921504606846976 }
    ensures { Laid at (decimal n) 20 lines.old lines.new result }
{
    at + texts::put_decimal(lines, at, n)
}

// A number and the byte after it.
pub(crate) fn put_number(lines: &mut [u8], at: usize, n: u64, after: u8) -> usize
    requires { at ≤ 1152921504606846976 }
    ensures { Laid at (number_then n after) 21 lines.old lines.new result }
{
    let p = put_decimal(lines, at, n);
    p + put_byte(lines, p, after)
}
