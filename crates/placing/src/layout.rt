// The whole layout, while measuring: copies, the new MD and FH, columns, attachments.
ghost use Rattle.std.specs.Prelude.{◌≡◌, ◌≤◌, length};
ghost use Rattle.plan.specs.Layout.{md_size};
ghost use Rattle.placing.specs.InWords.{AllWithin};
ghost use Rattle.placing.specs.Laying.{Rests, LaysOut};

use crate::columns::{Columns, place_columns, structure_end};
use blocks::block::link_at;
use copier::attachments::attachments;
use copier::columns::copy_columns;
use copier::history::first_copies;
use copier::memo::{Copying, aligned};
use fields::refusal::Refusal;

// What is known of a layout besides its words: how many copies there are after the history chain, the blocks of that chain, the places of
// the new MD and FH, how many copies there are after the columns' metadata and in all, the attachments, the ends of metadata and file.
#[derive(Clone, Copy)]
pub struct Numbers {
    pub history: u64,
    pub chain: u64,
    pub md: u64,
    pub fh: u64,
    pub metadata: u64,
    pub copies: u64,
    pub attachments: u64,
    pub metadata_end: u64,
    pub file_size: u64,
}

// What follows the columns' metadata: the number of attachments, the end of metadata, what is placed.
#[derive(Clone, Copy)]
pub struct Rest {
    pub count: u64,
    pub end: u64,
    pub state: Copying,
}

// Bytes of the MD with a text of n bytes.
fn md_bytes(n: u64) -> u64
    requires { n ≤ 4096 }
    ensures { result ≡ md_size n }
{
    aligned(24 + n + 1)
}

// After the columns' metadata: places of columns, then attachments.
fn place_rest(c: Columns, memo: &mut [u64], state: Copying) -> Result<Rest, Refusal>
    requires { (c.n ≤ 512) × (8192 ≤ length memo.old) × (length c.image.now ≤ 4294967296) × (state.used ≤ 2050)
        × (state.next ≤ 562949953421312) × AllWithin c.photos c.image.now c.size c.words.now c.fragments.now 0 c.n
        × (8 ≤ c.unit) × (c.unit ≤ 4096) }
    ensures { Rests c.entry.unit c.entry.photos c.entry.image.now c.entry.size c.entry.words.now c.entry.fragments.now c.entry.n
        memo.old memo.new state result }
{
    let a = aligned(state.next);
    let end = structure_end(c, a);
    let data = place_columns(c, memo, a, end);
    let moved = attachments(
        c.image,
        memo,
        link_at(c.image, 64, 3),
        2048,
        Copying {
            used: state.used,
            next: data,
        },
    )?;
    Ok(Rest {
        count: moved.count,
        end,
        state: moved.state,
    })
}

// The layout of columns and a history text of so many bytes.
pub(crate) fn lay_out(c: Columns, text: u64, memo: &mut [u64]) -> Result<Numbers, Refusal>
    requires { (c.n ≤ 512) × (8192 ≤ length memo.old) × (length c.image.now ≤ 4294967296) × (text ≤ 4096)
        × AllWithin c.photos c.image.now c.size c.words.now c.fragments.now 0 c.n
        × (8 ≤ c.unit) × (c.unit ≤ 4096) }
    ensures { LaysOut c.entry.unit c.entry.photos c.entry.image.now c.entry.size text c.entry.words.now c.entry.fragments.now c.entry.n
        memo.old memo.new result }
{
    let begun = first_copies(c.image, memo, 2048)?;
    let md = aligned(begun.state.next);
    let fh = md + md_bytes(text);
    let got = copy_columns(
        c.image,
        c.words,
        c.n,
        memo,
        2048,
        Copying {
            used: begun.state.used,
            next: fh + 56,
        },
    )?;
    let rest = place_rest(c, memo, got)?;
    Ok(Numbers {
        history: begun.state.used,
        chain: begun.count,
        md,
        fh,
        metadata: got.used,
        copies: rest.state.used,
        attachments: rest.count,
        metadata_end: rest.end,
        file_size: rest.state.next,
    })
}
