// Positions of a conversion in steps, named and returned to (document 02, request 11).
#![tactic(auto)]

ghost use Rattle.std.specs.Prelude.{◌≡◌, eqb, min, take};
ghost use Rattle.std.specs.List.{position};
ghost use Rattle.stores.specs.Stores.{naming, recalling};
ghost use Rattle.positions.specs.Held.{state_of, at_first, moved_of, number_of};

// Why a call changes nothing.
#[derive(Clone, Copy, Debug, PartialEq, Eq)]
pub enum Refusal {
    // No position has this name.
    NeverNamed,
    // The last store is past, or the name would be the fifth.
    PastLimit,
}

impl Refusal {
    // Its number at the C interface.
    pub fn number(self) -> u64
        ensures { result ≡ number_of self }
    {
        match self {
            Refusal::NeverNamed => 29,
            Refusal::PastLimit => 30,
        }
    }
}

// The number of the next store; the names that are held, so many, and the position of each.
#[derive(Clone, Copy)]
pub struct Positions {
    pub next: u64,
    pub count: u64,
    pub names: [u64; 4],
    pub places: [u64; 4],
}

// Before the first store, with no name.
pub fn begin() -> Positions
    ensures { state_of result ≡ at_first }
{
    Positions {
        next: 0,
        count: 0,
        names: [0; 4],
        places: [0; 4],
    }
}

// The index of the first of these names that is n.
fn index_of(names: &[u64], n: u64) -> Option<usize>
    ensures { result ≡ position (λ k. eqb k n) names.now }
{
    names.iter().position(|&name| name == n)
}

// The present position gets the name n, of a conversion of so many steps.
pub fn name(p: Positions, steps: u64, n: u64) -> Result<Positions, Refusal>
    ensures { moved_of result ≡ naming steps n (state_of p) }
{
    if steps <= p.next {
        return Err(Refusal::PastLimit);
    }
    let held = p.count.min(4) as usize;
    let i = index_of(&p.names[..held], n).unwrap_or(held);
    if 3 < i {
        return Err(Refusal::PastLimit);
    }
    let mut named = p;
    named.names[i] = n;
    named.places[i] = p.next;
    named.count = held.max(i + 1) as u64;
    Ok(named)
}

// Back to the position that is called n.
pub fn recall(p: Positions, steps: u64, n: u64) -> Result<Positions, Refusal>
    ensures { moved_of result ≡ recalling steps n (state_of p) }
{
    if steps <= p.next {
        return Err(Refusal::PastLimit);
    }
    let held = p.count.min(4) as usize;
    let Some(i) = index_of(&p.names[..held], n) else {
        return Err(Refusal::NeverNamed);
    };
    Ok(Positions {
        next: p.places[i],
        ..p
    })
}
