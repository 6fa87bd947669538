// The whole layout, while measuring: copies, columns, attachments.
ghost use Rattle.std.specs.Prelude.{◌≡◌, ◌≤◌, length};
ghost use Rattle.fields.specs.Answer.{verdict_of};
ghost use Rattle.copier.specs.Standing.{Ready};
ghost use Rattle.arranging.specs.Laying.{room_in, Attaches, Over, Rests, LaysOut};

use crate::decide::Numbers;
use crate::kept::Kept;
use crate::placement::{place_columns, structure_end};
use blocks::block::link_at;
use copier::attachments::attachments;
use copier::columns::copy_columns;
use copier::history::first_copies;
use copier::memo::{Copying, aligned};
use fields::refusal::Refusal;

// What follows the columns' metadata: how many attachments, the end of metadata, what is placed.
#[derive(Clone, Copy)]
pub struct Rest {
    pub count: u64,
    pub end: u64,
    pub state: Copying,
}

// 20 for an output of so many bytes: a file has at most 2^59.
fn room_in(out: u64, size: u64) -> Result<(), Refusal>
    ensures { verdict_of result ≡ room_in out size }
{
    if 576460752303423488 < size {
        return Err(Refusal::OutputTooShort(u64::MAX));
    }
    if out < size {
        return Err(Refusal::OutputTooShort(size));
    }
    Ok(())
}

// The attachments, then 20.
fn attach_all(
    image: &[u8],
    memo: &mut [u64],
    out: u64,
    end: u64,
    state: Copying,
) -> Result<Rest, Refusal>
    requires { Ready memo.old 2050 state × (length image.now ≤ 140737488355328) }
    ensures { Attaches image.now out memo.old memo.new end state result }
{
    let moved = attachments(image, memo, link_at(image, 64, 3), 2050, state)?;
    room_in(out, moved.state.next)?;
    Ok(Rest {
        count: moved.count,
        end,
        state: moved.state,
    })
}

// What is refused where they would be placed past 2^59: their own refusals don't depend on places.
fn attach_over(image: &[u8], memo: &mut [u64], used: u64) -> Refusal
    requires { (8192 ≤ length memo.old) × (used ≤ 2050) × (length image.now ≤ 140737488355328) }
    ensures { Over image.now memo.old used result }
{
    let nowhere = Copying { used, next: 0 };
    match attachments(image, memo, link_at(image, 64, 3), 2050, nowhere) {
        Ok(_) => Refusal::OutputTooShort(u64::MAX),
        Err(refusal) => refusal,
    }
}

// After the columns' metadata: places of columns, then attachments.
fn place_rest(file: &Kept, memo: &mut [u64], out: u64, state: Copying) -> Result<Rest, Refusal>
    requires { (8192 ≤ length memo.old) × (state.used ≤ 2050) × (state.next ≤ 2199023255552) }
    ensures { Rests file.now.unit file.now.image.now file.now.columns.now file.now.count out memo.old memo.new state result }
{
    let a = aligned(state.next);
    let Some(end) = structure_end(file, a) else {
        return Err(attach_over(file.image, memo, state.used));
    };
    let Some(data) = place_columns(file, memo, a, end) else {
        return Err(attach_over(file.image, memo, state.used));
    };
    attach_all(
        file.image,
        memo,
        out,
        end,
        Copying {
            used: state.used,
            next: data,
        },
    )
}

// The layout of all columns for an output of so many bytes.
pub(crate) fn lay_out(file: &Kept, memo: &mut [u64], out: u64) -> Result<Numbers, Refusal>
    requires { 8192 ≤ length memo.old }
    ensures { LaysOut file.now.unit file.now.image.now file.now.columns.now file.now.count out memo.old memo.new result }
{
    let begun = first_copies(file.image, memo, 2050)?;
    let copied = copy_columns(
        file.image,
        file.columns,
        file.count,
        memo,
        2050,
        begun.state,
    )?;
    let rest = place_rest(file, memo, out, copied)?;
    Ok(Numbers {
        columns: file.count,
        history: begun.state.used,
        chain: begun.count,
        metadata: copied.used,
        copies: rest.state.used,
        attachments: rest.count,
        metadata_end: rest.end,
        file_size: rest.state.next,
    })
}
