// A window of the file: zeros, over which every block is laid that has a byte in it; what lies elsewhere is passed over by a test.
#![tactic(auto)]

ghost use Rattle.std.specs.Prelude.{List, [], ◌∷◌, ◌≡◌, ℕ, ◌≤◌, length};
ghost use Rattle.result.specs.Fill.{block, md_bytes, fh_bytes};
ghost use Rattle.windows.specs.Windowed.{over_all};
ghost use Rattle.window_file.specs.Window.{args_of, first_at, front_in, LaysHistory, LaysMetadata, WritesWindow};

use choices::Choices;
use placing::layout::Numbers;
use planning::words::word;
use puts::zero;
use window_blocks::{lay_fh, lay_hd, lay_md};
use window_columns::lay_data;
use window_copies::attached::lay_attachments;
use window_copies::copies::lay_copies;
use window_structure::lay_structure;
use windows::lay;
use writing::file::{comment_of, first_column, first_history};

// What was decided, in numbers: blocks met, fragments of data chains, columns, omissions, and those of the layout.
#[derive(Clone, Copy)]
pub struct Held {
    pub items: u64,
    pub pieces: u64,
    pub columns: u64,
    pub omissions: u64,
    pub numbers: Numbers,
}

// What a call lends and chooses.
#[derive(Clone, Copy)]
pub struct Call<'a> {
    pub image: &'a [u8],
    pub size: u64,
    pub ident: &'a [u8],
    pub text: &'a [u8],
    pub time: u64,
    pub choices: Choices,
    pub table: &'a [u8],
}

// The place of the first attachment of count, 0 for none.
fn first_attachment(memo: &[u64], count: u64) -> u64
    ensures { result ≡ first_at memo.now count }
{
    if count == 0 { 0 } else { word(memo, 4101) }
}

// The identification and the HD, of n columns.
fn lay_front(w: &mut [u8], a: u64, image: &[u8], ident: &[u8], memo: &[u64], n: u64, m: Numbers)
    ensures { length ident.now ≡ 64 → w.new ≡ over_all a (front_in image.now ident.now memo.now n m) w.old }
{
    if 168 <= a {
        return;
    }
    let dg = first_column(memo, n);
    let fh = first_history(memo, m.copies, m.chain, m.fh);
    let attachment = first_attachment(memo, m.attachments);
    let comment = comment_of(image, memo, m.copies);
    lay(w, a, 0, ident, 0, ident.len() as u64);
    lay_hd(w, a, 64, image, dg, fh, attachment, comment);
}

// The blocks copied of the history, up to the MD.
fn lay_history(w: &mut [u8], a: u64, image: &[u8], memo: &[u64], m: Numbers)
    ensures { LaysHistory image.now memo.now m a w.old w.new }
{
    if m.md <= a {
        return;
    }
    lay_copies(w, a, image, memo, m.copies, m.chain, m.fh, 0, m.history);
}

// The new MD and FH.
fn lay_new(w: &mut [u8], a: u64, md: u64, fh: u64, text: &[u8], time: u64)
    ensures { w.new ≡ over_all a (block md (md_bytes text.now) ∷ block fh (fh_bytes md time) ∷ []) w.old }
{
    lay_md(w, a, md, text);
    lay_fh(w, a, fh, md, time);
}

// All that stands before the data.
fn lay_metadata(w: &mut [u8], a: u64, call: &Call<'_>, columns: &[u64], copies: &[u64], h: Held)
    ensures { LaysMetadata (args_of call.now) h
        columns.now copies.now a w.old w.new }
{
    let m = h.numbers;
    if m.metadata_end <= a {
        return;
    }
    lay_front(w, a, call.image, call.ident, copies, h.columns, m);
    lay_history(w, a, call.image, copies, m);
    lay_new(w, a, m.md, m.fh, call.text, call.time);
    lay_copies(
        w, a, call.image, copies, m.copies, m.chain, m.fh, m.history, m.metadata,
    );
    lay_structure(
        w,
        a,
        call.image,
        call.choices.photos,
        call.table,
        call.size,
        columns,
        copies,
        h.columns,
        m.copies,
        m.metadata,
        m.attachments,
    );
}

// The bytes of the file from index a on, as many as w has; what was decided stands in the words. pool and words keep places of records.
pub fn write_window(
    w: &mut [u8],
    a: u64,
    call: &Call<'_>,
    source: &[u64],
    fragments: &[u64],
    columns: &[u64],
    copies: &[u64],
    pool: &mut [u64],
    words: &mut [u64],
    h: Held,
)
    ensures { WritesWindow (args_of call.now) h
        source.now fragments.now columns.now copies.now a
        pool.old pool.new words.old words.new w.old w.new }
{
    if fragments.len() < 3072 {
        return;
    }
    let m = h.numbers;
    let n = w.len() as u64;
    zero(w, 0, n);
    lay_metadata(w, a, call, columns, copies, h);
    lay_data(
        w,
        a,
        call.image,
        call.size,
        source,
        h.items,
        &fragments[0..3072],
        h.pieces,
        columns,
        copies,
        h.columns,
        pool,
        words,
    );
    lay_attachments(
        w,
        a,
        call.image,
        copies,
        m.copies,
        m.chain,
        m.fh,
        m.metadata,
        m.attachments,
    );
}
