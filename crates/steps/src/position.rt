// Positions of a conversion, named and returned to.
ghost use Rattle.stores.specs.Stores.{naming, recalling};
ghost use Rattle.positions.specs.Held.{state_of, moved_of};
ghost use Rattle.steps.specs.Conversion.{positions_of};
ghost use Rattle.steps.specs.Steps.{PositionAs};

use crate::conversion::{Conversion, at_positions, positions_of};
use positions::{Positions, Refusal};

// A refusal's number, 0 where there is none; the state after the call.
#[repr(C)]
#[derive(Drop)]
pub struct Position {
    pub number: u64,
    pub conversion: Conversion,
}

// What a call answers: the state with the new positions, or the same state.
fn answered(k: Conversion, moved: Result<Positions, Refusal>) -> Position
    ensures { PositionAs (moved_of moved) k result }
{
    match moved {
        Ok(p) => Position {
            number: 0,
            conversion: at_positions(k, p),
        },
        Err(refusal) => Position {
            number: refusal.number(),
            conversion: k,
        },
    }
}

// The present position gets the name n: 30 after the last store, 30 for a fifth name.
pub fn name(k: Conversion, n: u64) -> Position
    ensures { PositionAs (naming k.steps n (state_of (positions_of k))) k result }
{
    answered(k, positions::name(positions_of(k), k.steps, n))
}

// Back to the position that is called n: 30 after the last store, 29 where none is.
pub fn recall(k: Conversion, n: u64) -> Position
    ensures { PositionAs (recalling k.steps n (state_of (positions_of k))) k result }
{
    answered(k, positions::recall(positions_of(k), k.steps, n))
}
