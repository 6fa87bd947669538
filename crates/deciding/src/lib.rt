// What a channel other than its group's master becomes.
#![tactic(auto)]

pub mod reason;

ghost use Rattle.std.specs.Prelude.{◌≡◌};
ghost use Rattle.plan.specs.Columns.{composed, signal_link, stored_at, decide_chain, decide};
ghost use Rattle.deciding.specs.Decided.{tested_as, left, laid_decision};

use crate::reason::Reason;
use blocks::block::{CG, CN, header_in, kind_at, link_at};
use chains::chain::chain;
use channels::{channel_type, fits_in, is_master_type};
use choices::treatment_of;
use fields::refusal::Refusal;
use photos::photos_in;

const CA: u64 = 1094918947;

// An omission; or a column, with its signal data where it has any. count: the fragments kept, with those before.
#[derive(Clone, Copy, Debug, PartialEq, Eq)]
pub enum Decision {
    Omitted { reason: Reason },
    Kept { signal: bool, count: u64 },
}

// Reasons 5 and 6.
fn composition(image: &[u8], c: u64) -> Result<Option<Reason>, Refusal>
    ensures { tested_as result ≡ composed image.now c }
{
    let a = link_at(image, c, 1);
    if a == 0 {
        return Ok(None);
    }
    header_in(image, a)?;
    let kind = kind_at(image, a);
    if kind == CA {
        return Ok(Some(Reason::Array));
    }
    if kind == CN {
        return Ok(Some(Reason::Structure));
    }
    Ok(None)
}

// Link 6 of a type 1 channel that is not stored as type 0, else 0.
fn signal_link(image: &[u8], table: &[u8], c: u64) -> u64
    ensures { result ≡ signal_link table.now image.now c }
{
    let t = channel_type(image, c);
    if t != 1 {
        return 0;
    }
    if treatment_of(table, t) == 2 {
        return 0;
    }
    link_at(image, c, 5)
}

// Reason 7, of that link.
fn storage(image: &[u8], a: u64) -> Result<Option<Reason>, Refusal>
    ensures { tested_as result ≡ stored_at image.now a }
{
    if a == 0 {
        return Ok(None);
    }
    header_in(image, a)?;
    if kind_at(image, a) == CG {
        return Ok(Some(Reason::StorageGroup));
    }
    Ok(None)
}

// A column, with the signal data at that link; n fragments are kept before.
fn decide_chain(image: &[u8], fragments: &mut [u64], n: u64, a: u64) -> Result<Decision, Refusal>
    ensures { left result fragments.new ≡ laid_decision (decide_chain image.now n a) n fragments.old }
{
    if a == 0 {
        return Ok(Decision::Kept {
            signal: false,
            count: n,
        });
    }
    let count = chain(true, false, image, fragments, n, a)?;
    Ok(Decision::Kept {
        signal: true,
        count,
    })
}

// The reasons in their order, for the CN at c of the group at g; then 28, then the signal data.
pub fn decide(
    image: &[u8],
    photos: bool,
    table: &[u8],
    fragments: &mut [u64],
    n: u64,
    g: u64,
    c: u64,
) -> Result<Decision, Refusal>
    ensures { left result fragments.new
        ≡ laid_decision (decide photos table.now image.now n g c) n fragments.old }
{
    let t = channel_type(image, c);
    let treated = treatment_of(table, t);
    if treated == 4 {
        return Ok(Decision::Omitted {
            reason: Reason::Synchronization,
        });
    }
    if treated == 8 {
        return Ok(Decision::Omitted {
            reason: Reason::ByTable,
        });
    }
    if !fits_in(image, g, c) {
        return Ok(Decision::Omitted {
            reason: Reason::Unfit,
        });
    }
    if is_master_type(image, c) {
        return Ok(Decision::Omitted {
            reason: Reason::FurtherMaster,
        });
    }
    if let Some(reason) = composition(image, c)? {
        return Ok(Decision::Omitted { reason });
    }
    let a = signal_link(image, table, c);
    if let Some(reason) = storage(image, a)? {
        return Ok(Decision::Omitted { reason });
    }
    photos_in(photos, image, c)?;
    decide_chain(image, fragments, n, a)
}
