// Framing: the records of a DG with several groups, one after the other in its joined data.
ghost use Rattle.std.specs.Prelude.{◌≡◌, length, get_or};
ghost use Rattle.base.specs.Blit.{part};
ghost use Rattle.base.specs.Field.{le_at};
ghost use Rattle.mdf.specs.Records.{joined, with_id};
ghost use Rattle.records.specs.Bounded.{Bounded};
ghost use Rattle.records.specs.Ahead.{ahead, spot_past, step_to};
ghost use Rattle.records.specs.Framing.{numeral, body_of, body_to};
ghost use Rattle.records.specs.Answer.{ahead_of, moved_of, number_of, found_of, reached_of};

use crate::fragment::word_at;
use crate::group::{inval_bytes, is_storage, record_id, samples_of};
use fields::field_at;

// A state of framing, and a place in the joined data: the index of the words of the fragments past its own, a position of the image, and the bytes left of its fragment.
#[derive(Clone, Copy)]
pub struct Framing {
    pub at: u64,
    pub position: u64,
    pub left: u64,
}

// A record: the number of its group, its bytes past the id, and the place past it.
#[derive(Clone, Copy)]
pub struct Record {
    pub group: u64,
    pub bytes: u64,
    pub next: Framing,
}

// A group with an id: its number and its CG.
#[derive(Clone, Copy)]
pub struct Group {
    pub number: u64,
    pub cg: u64,
}

// How many of the bytes left from a position on lie in the image.
pub fn inside(image: &[u8], position: u64, left: u64) -> u64
    ensures { result ≡ length (part position left image.now) }
{
    let n = image.len() as u64;
    if n < position {
        return 0;
    }
    if n - position < left {
        return n - position;
    }
    left
}

// The place m bytes further on, if there is one.
pub fn skip_on(image: &[u8], fragments: &[u64], from: Framing, m: u64) -> Option<Framing>
    ensures { moved_of result ≡ spot_past m (ahead_of image.now fragments.now from) from.at }
{
    let n = fragments.len() as u64;
    let mut spot = from;
    let mut more = m;
    loop {
        let here = inside(image, spot.position, spot.left);
        if more <= here {
            return Some(Framing {
                at: spot.at,
                position: spot.position + more,
                left: here - more,
            });
        }
        if n < spot.at {
            return None;
        }
        if n - spot.at < 3 {
            return None;
        }
        more -= here;
        spot = Framing {
            at: spot.at + 3,
            position: word_at(fragments, spot.at),
            left: word_at(fragments, spot.at + 1),
        };
    }
}

// Byte m of what is ahead, 0 past the end.
pub fn byte_at(image: &[u8], fragments: &[u64], from: Framing, m: u64) -> u64
    ensures { Bounded 256 (get_or (joined image.now (ahead_of image.now fragments.now from)) m 0) result }
{
    let n = fragments.len() as u64;
    let mut spot = from;
    let mut more = m;
    loop {
        let here = inside(image, spot.position, spot.left);
        if more < here {
            return field_at::<1>(image, spot.position + more);
        }
        if n < spot.at {
            return 0;
        }
        if n - spot.at < 3 {
            return 0;
        }
        more -= here;
        spot = Framing {
            at: spot.at + 3,
            position: word_at(fragments, spot.at),
            left: word_at(fragments, spot.at + 1),
        };
    }
}

// The number of the first n bytes ahead, the lowest first, if 64 bits hold it.
pub fn number_at(image: &[u8], fragments: &[u64], from: Framing, n: u64) -> Option<u64>
    ensures { number_of result ≡ numeral (le_at n (joined image.now (ahead_of image.now fragments.now from)) 0) }
{
    let mut i = n;
    let mut x: u64 = 0;
    while 0 < i {
        if 72057594037927935 < x {
            return None;
        }
        i -= 1;
        x = x * 256 + byte_at(image, fragments, from, i);
    }
    Some(x)
}

// The 32-bit number ahead.
fn length_at(image: &[u8], fragments: &[u64], from: Framing) -> u64
    ensures { Bounded 4294967296 (le_at 4 (joined image.now (ahead_of image.now fragments.now from)) 0) result }
{
    let a = byte_at(image, fragments, from, 0);
    let b = byte_at(image, fragments, from, 1);
    let c = byte_at(image, fragments, from, 2);
    let d = byte_at(image, fragments, from, 3);
    a + 256 * (b + 256 * (c + 256 * d))
}

// The group with an id.
pub fn with_id(image: &[u8], groups: &[u64], id: u64) -> Option<Group>
    ensures { found_of result ≡ with_id image.now id 0 groups.now }
{
    for i in 0..groups.len() {
        let cg = groups[i];
        if record_id(image, cg) == id {
            return Some(Group {
                number: i as u64,
                cg,
            });
        }
    }
    None
}

// The bytes of a record of the group at g, past its id; of a VLSD storage group with the length that stands ahead.
fn body_of(image: &[u8], fragments: &[u64], from: Framing, g: u64) -> Option<u64>
    ensures { number_of result ≡ body_of image.now (joined image.now (ahead_of image.now fragments.now from)) g }
{
    if is_storage(image, g) {
        skip_on(image, fragments, from, 4)?;
        return Some(4 + length_at(image, fragments, from));
    }
    Some(samples_of(image, g) + inval_bytes(image, g))
}

// A record of group number k, whose CG is at g; its id was passed.
fn body_step(image: &[u8], fragments: &[u64], from: Framing, k: u64, g: u64) -> Option<Record>
    ensures { reached_of result ≡ body_to image.now k g (ahead_of image.now fragments.now from) from.at }
{
    let bytes = body_of(image, fragments, from, g)?;
    let next = skip_on(image, fragments, from, bytes)?;
    Some(Record {
        group: k,
        bytes,
        next,
    })
}

impl Framing {
    // The record that begins here; ids have n bytes.
    pub fn step(self, image: &[u8], n: u64, groups: &[u64], fragments: &[u64]) -> Option<Record>
        ensures { reached_of result
            ≡ step_to image.now n groups.now (ahead_of image.now fragments.now self) self.at }
    {
        let body = skip_on(image, fragments, self, n)?;
        let id = number_at(image, fragments, self, n)?;
        let group = with_id(image, groups, id)?;
        body_step(image, fragments, body, group.number, group.cg)
    }
}
