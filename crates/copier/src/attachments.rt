// The attachment chain: each AT is placed after the blocks newly copied for it; three words each from 4100 on.
ghost use Rattle.std.specs.Prelude.{◌≡◌, [], ◌∷◌, ◌+◌, ◌*◌, ◌≤◌, ◌<◌, length};
ghost use Rattle.base.specs.Blit.{blit};
ghost use Rattle.plan.specs.Geometry.{align8};
ghost use Rattle.plan.specs.Copies.{attachments_of};
ghost use Rattle.copier.specs.Standing.{standing, Room, Ready};
ghost use Rattle.copier.specs.Attaching.{attached_in, Moves};
ghost use Rattle.copier.specs.Index.{Indexed};

use crate::copies::follow;
use crate::memo::{Chain, Copying, aligned, index_copies, is_ready};
use blocks::block::{first_link, links_at, size_at};
use fields::refusal::Refusal;
use photos::{Going, goes_on};

// Whether a is one of the attachments so far.
fn is_attached(memo: &[u64], count: u64, a: u64) -> bool
    requires { (count ≤ 64) × (8192 ≤ length memo.now) }
    ensures { result ≡ attached_in memo.now 4100 count a }
{
    for i in 0..count as usize {
        if memo[4100 + 3 * i] == a {
            return true;
        }
    }
    false
}

// The AT at a of so many bytes, after what is placed, with so many copies of its own.
fn attach(memo: &mut [u64], a: u64, size: u64, count: u64, own: u64, state: Copying) -> Copying
    requires { (count < 64) × (8192 ≤ length memo.old) × Room state.used state.next
        × (size ≤ 140737488355328) }
    ensures words { memo.new
        ≡ blit (4100 + 3 * count) (a ∷ align8 state.next ∷ own ∷ []) memo.old }
    ensures state { result ≡ record { used = state.used; next = align8 (align8 state.next + size) } }
{
    let at = (4100 + 3 * count) as usize;
    let to = aligned(state.next);
    let next = aligned(to + size);
    memo[at] = a;
    memo[at + 1] = to;
    memo[at + 2] = own;
    Copying {
        used: state.used,
        next,
    }
}

// The chain from a on: it ends at 0, at an AT met before and at another kind; header range (4), 18, whole range (4), 19.
fn move_chain(
    image: &[u8],
    memo: &mut [u64],
    index: &mut [u16; 4096],
    a: u64,
    most: u64,
    state: Copying,
) -> Result<Chain, Refusal>
    requires { Ready memo.old most state × (length image.now ≤ 140737488355328)
        × Indexed memo.old state.used index.old }
    ensures { Moves memo.old memo.new state result
        (attachments_of most image.now a (standing memo.old state)) }
{
    let mut at = a;
    let mut count: u64 = 0;
    let mut st = state;
    loop {
        let met = is_attached(memo, count, at);
        let Going::On = goes_on(image, at, met, count)? else {
            return Ok(Chain { count, state: st });
        };
        let links = links_at(image, at);
        let t = follow(image, memo, index, links - 1, at + 32, most, st)?;
        let size = size_at(image, at);
        st = attach(memo, at, size, count, t.used - st.used, t);
        count += 1;
        at = first_link(image, at);
    }
}

// The same, with at most so many copies; 1 where copying can't begin (`Ready`), and for an image past 128 TiB.
pub fn attachments(
    image: &[u8],
    memo: &mut [u64],
    a: u64,
    most: u64,
    state: Copying,
) -> Result<Chain, Refusal>
    ensures { Ready memo.old most state → length image.now ≤ 140737488355328
        → Moves memo.old memo.new state result
        (attachments_of most image.now a (standing memo.old state)) }
{
    if !is_ready(memo, most, state) || 140737488355328 < image.len() {
        return Err(Refusal::Arguments);
    }
    let mut index = index_copies(memo, state.used);
    move_chain(image, memo, &mut index, a, most, state)
}
