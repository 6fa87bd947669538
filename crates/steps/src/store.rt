// The store of a step.
ghost use Rattle.steps.specs.Conversion.{call_of};
ghost use Rattle.steps.specs.Steps.{Stores, OneStore};

use crate::conversion::{Conversion, choices_of, held_of};
use crate::span::span_of;
use puts::zero;
use window_file::{Call, write_window};

// Store number next over the file: eight zeros, a page, or the first eight bytes. Only its own bytes are lent to what writes them.
pub(crate) fn store(
    file: &mut [u8],
    k: Conversion,
    image: &[u8],
    ident: &[u8],
    text: &[u8],
    table: &[u8],
    source: &[u64],
    fragments: &[u64],
    columns: &[u64],
    copies: &[u64],
    stretches: &mut [u64],
    offsets: &mut [u64],
)
    ensures right { Stores (call_of k image.now ident.now text.now table.now) k
        source.now fragments.now columns.now copies.now stretches.old stretches.new
        offsets.old offsets.new file.old file.new }
    ensures bounded { OneStore file.old file.new }
{
    if k.next == 0 {
        zero(file, 0, 8);
        return;
    }
    let s = span_of(k.next - 1, k.file_size, file.len() as u64);
    let p = s.first as usize;
    let q = s.past as usize;
    let call = Call {
        image,
        size: k.block_size,
        ident,
        text,
        time: k.time,
        choices: choices_of(k),
        table,
    };
    write_window(
        &mut file[p..q],
        s.first,
        &call,
        source,
        fragments,
        columns,
        copies,
        stretches,
        offsets,
        held_of(k),
    );
}
