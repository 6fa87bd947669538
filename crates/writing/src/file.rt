// The file: one part after the other, zeros between blocks.
ghost use Rattle.std.specs.Prelude.{◌≡◌, ◌≤◌, length, take, slice_index};
ghost use Rattle.base.specs.Blit.{blit};
ghost use Rattle.base.specs.Choice.{if_eq};
ghost use Rattle.mdf.specs.Block.{link_at};
ghost use Rattle.copier.specs.Standing.{copies_in};
ghost use Rattle.result.specs.Fill.{new_link};
ghost use Rattle.result.specs.Result.{decided};
ghost use Rattle.writing.specs.Answer.{args_of, file_for};
ghost use Rattle.writing.specs.Finish.{Stands};

use crate::convert::Call;
use crate::data::{Recording, write_data};
use crate::front::{write_front, write_history};
use crate::structure::write_structure;
use blocks::block::link_at;
use copier::memo::new_link;
use placing::decide::Decision;
use planning::words::word;
use write_copies::attached::{next_place, write_attachments};
use write_copies::copies::write_copies;
use write_copies::gap::gap;

// The place of the first column's DG, 0 without columns.
pub fn first_column(copies: &[u64], n: u64) -> u64
    ensures { result ≡ if_eq n 0 0 (slice_index copies.now 6656) }
{
    if n == 0 { 0 } else { word(copies, 6656) }
}

// The place of the first block of the history: the copy of the chain's first, or the new FH.
pub fn first_history(copies: &[u64], used: u64, chain: u64, fh: u64) -> u64
    ensures { result ≡ if_eq chain 0 fh (new_link (copies_in copies.now used) (slice_index copies.now 4352)) }
{
    if chain == 0 {
        return fh;
    }
    let a = word(copies, 4352);
    new_link(copies, used, a)
}

// The place of the copy of the HD's comment.
pub fn comment_of(image: &[u8], copies: &[u64], used: u64) -> u64
    ensures { result ≡ new_link (copies_in copies.now used) (link_at image.now 64 5) }
{
    let a = link_at(image, 64, 5);
    new_link(copies, used, a)
}

// The words of all fragments; others may come to stand in their place while data is written.
fn first_fragments(fragments: &[u64]) -> [u64; 3072]
    requires { 3072 ≤ length fragments.now }
    ensures { result ≡ take 3072 fragments.now }
{
    let mut kept = [0u64; 3072];
    kept.copy_from_slice(&fragments[..3072]);
    kept
}

// All of it, from what was decided; the words of fragments are free afterwards.
pub(crate) fn write_file(
    out: &mut [u8],
    call: Call,
    source: &[u64],
    fragments: &mut [u64],
    columns: &[u64],
    copies: &[u64],
    found: Decision,
)
    requires { Stands (args_of call) found.items found.fragments found.columns found.omissions found.numbers
        source.now fragments.old columns.now copies.now × (found.numbers.file_size ≤ length out.old) }
    ensures { out.new ≡ blit 0 (file_for (args_of call.entry) (decided (args_of call.entry))) out.old }
{
    let image = call.image;
    let numbers = found.numbers;
    let used = numbers.copies;
    let chain = numbers.chain;
    let fh = numbers.fh;
    let column = first_column(copies, found.columns);
    let history = first_history(copies, used, chain, fh);
    let attachment = next_place(copies, 0, numbers.attachments);
    let comment = comment_of(image, copies, used);
    let a = write_front(out, image, call.ident, column, history, attachment, comment);
    let b = write_copies(out, a, image, copies, used, chain, fh, 0, numbers.history);
    let c = write_history(out, b, numbers.md, fh, call.text, call.time);
    let d = write_copies(
        out,
        c,
        image,
        copies,
        used,
        chain,
        fh,
        numbers.history,
        numbers.metadata,
    );
    let e = write_structure(
        out,
        d,
        image,
        call.choices.photos,
        call.table,
        call.size,
        columns,
        copies,
        found.columns,
        used,
        numbers.metadata,
        numbers.attachments,
    );
    let kept = first_fragments(fragments);
    let recording = Recording {
        image,
        size: call.size,
        source,
        n: found.items,
        fragments: &kept,
        nf: found.fragments,
    };
    let f = write_data(out, e, recording, columns, copies, found.columns, fragments);
    let g = write_attachments(
        out,
        f,
        image,
        copies,
        used,
        chain,
        fh,
        numbers.metadata,
        numbers.attachments,
    );
    gap(out, g, numbers.file_size as usize);
}
