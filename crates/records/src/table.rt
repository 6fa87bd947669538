// Framing by tables of a DG's groups that are made once: ids and sizes of records in the order of the groups, and hints by which the group
// of an id is guessed. A guess counts only where the table has the id there.
ghost use Rattle.std.specs.Prelude.{◌≡◌, ◌+◌, ◌-◌, ◌<◌, ◌≤◌, length, get_or, set, IfSome, IsNone};
ghost use Rattle.base.specs.Blit.{blit};
ghost use Rattle.base.specs.Field.{Field};
ghost use Rattle.records.specs.Ahead.{step_to};
ghost use Rattle.records.specs.Answer.{ahead_of, reached_of};
ghost use Rattle.records.specs.Table.{size_word, ids_of, sizes_of, Tabled, Guessed, IdAt, BodyIn};

use crate::framing::{Framing, Record, inside};
use crate::group::{inval_bytes, is_storage, record_id, samples_of};

// The word of the group at g in the table of sizes.
fn size_word(image: &[u8], g: u64) -> u64
    ensures { result ≡ size_word image.now g }
{
    if is_storage(image, g) {
        return 0;
    }
    samples_of(image, g) + inval_bytes(image, g) + 1
}

// Word i, if there is one.
pub(crate) fn put(words: &mut [u64], i: usize, x: u64)
    ensures { words.new ≡ set words.old i x }
{
    if i < words.len() {
        words[i] = x;
    }
}

// The tables of ids and sizes, of as many groups as they have words.
pub fn fill_tables(image: &[u8], groups: &[u64], ids: &mut [u64], sizes: &mut [u64])
    ensures { (ids.new ≡ blit 0 (ids_of image.now groups.now) ids.old)
        × (sizes.new ≡ blit 0 (sizes_of image.now groups.now) sizes.old) }
{
    for i in 0..groups.len() {
        let g = groups[i];
        put(ids, i, record_id(image, g));
        put(sizes, i, size_word(image, g));
    }
}

// The hints have two parts: by the number of a group the one that followed it last, and from 512 on the numbers of groups, one more each,
// by their ids: at the id's remainder by 1,021, or at the first free word past it.

// The first free word for an id, if one is free.
fn free_slot(hints: &[u64; 1536], id: u64) -> Option<usize>
    ensures { IfSome result (λ h. h < 1536) }
{
    let mut h = (id % 1021) as usize;
    for _ in 0..1024 {
        if hints[512 + h] == 0 {
            return Some(512 + h);
        }
        h = (h + 1) % 1024;
    }
    None
}

// The places of these groups by their ids.
fn fill_hints(ids: &[u64], hints: &mut [u64; 1536]) {
    for i in 0..ids.len() {
        if let Some(h) = free_slot(hints, ids[i]) {
            hints[h] = i as u64 + 1;
        }
    }
}

// The tables and the hints of these groups; the hints are guesses, and what they are is left free.
pub fn make_tables(
    image: &[u8],
    groups: &[u64],
    ids: &mut [u64; 512],
    sizes: &mut [u64; 512],
    hints: &mut [u64; 1536],
)
    ensures { (ids.new ≡ blit 0 (ids_of image.now groups.now) ids.old)
        × (sizes.new ≡ blit 0 (sizes_of image.now groups.now) sizes.old) }
{
    fill_tables(image, groups, ids, sizes);
    fill_hints(&ids[..groups.len().min(512)], hints);
}

// A group that has the id in its table.
fn look_up(ids: &[u64; 512], hints: &[u64; 1536], id: u64) -> Option<u64>
    ensures { IfSome result (Guessed ids.now id) }
{
    let mut h = (id % 1021) as usize;
    for _ in 0..1024 {
        let g = hints[512 + h];
        if g == 0 {
            return None;
        }
        if 512 < g {
            return None;
        }
        if ids[(g - 1) as usize] == id {
            return Some(g - 1);
        }
        h = (h + 1) % 1024;
    }
    None
}

// A group that has the id in its table: the one that followed the last one before, else by the id.
fn guess(ids: &[u64; 512], hints: &[u64; 1536], last: u64, id: u64) -> Option<u64>
    ensures { IfSome result (Guessed ids.now id) }
{
    if last < 512 {
        let g = hints[last as usize];
        if g < 512 {
            if ids[g as usize] == id {
                return Some(g);
            }
        }
    }
    look_up(ids, hints, id)
}

// Group g followed the last one.
fn note(hints: &mut [u64; 1536], last: u64, g: u64) {
    if last < 512 {
        hints[last as usize] = g;
    }
}

// The number of the N bytes at p. Whoever reads records tests the bytes left before, so the range is not tested again.
fn field_in<const N: usize>(s: &[u8], p: usize) -> u64
    requires width { N ≤ 8 }
    requires inside { p + N ≤ length s.now }
    ensures { Field N s.now p result }
{
    let mut bytes = [0u8; 8];
    bytes[..N].copy_from_slice(&s[p..p + N]);
    u64::from_le_bytes(bytes)
}

// The id of n bytes at p, where it lies in the bytes left and n is 1, 2, 4 or 8.
fn id_at(image: &[u8], p: u64, left: u64, n: u64) -> Option<u64>
    requires { left ≤ length image.now - p }
    ensures { IdAt image.now p left n result }
{
    let i = p as usize;
    if left < n {
        return None;
    }
    match n {
        1 => Some(field_in::<1>(image, i)),
        2 => Some(field_in::<2>(image, i)),
        4 => Some(field_in::<4>(image, i)),
        8 => Some(field_in::<8>(image, i)),
        _ => None,
    }
}

// The bytes of a record past its id, where they lie in the bytes left from p on; size is its group's word in the table.
fn body_in(image: &[u8], p: u64, left: u64, size: u64) -> Option<u64>
    requires { left ≤ length image.now - p }
    ensures { BodyIn image.now p left size result }
{
    if 0 < size {
        let m = size - 1;
        if m <= left {
            return Some(m);
        }
        return None;
    }
    if left < 4 {
        return None;
    }
    let m = 4 + field_in::<4>(image, p as usize);
    if m <= left {
        return Some(m);
    }
    None
}

impl Framing {
    // The record here, where it lies in its fragment and the tables have its group, else none.
    fn quick(
        self,
        image: &[u8],
        n: u64,
        groups: &[u64],
        fragments: &[u64],
        ids: &[u64; 512],
        sizes: &[u64; 512],
        hints: &[u64; 1536],
        last: u64,
    ) -> Option<Record>
        ensures { Tabled image.now groups.now ids.now sizes.now → (IsNone result → ⊥) → reached_of result
            ≡ step_to image.now n groups.now (ahead_of image.now fragments.now self) self.at }
    {
        let here = inside(image, self.position, self.left);
        let id = id_at(image, self.position, here, n)?;
        let group = guess(ids, hints, last, id)?;
        if groups.len() as u64 <= group {
            return None;
        }
        let bytes = body_in(image, self.position + n, here - n, sizes[group as usize])?;
        let next = Framing {
            at: self.at,
            position: self.position + n + bytes,
            left: here - n - bytes,
        };
        Some(Record { group, bytes, next })
    }

    // The step by the tables of these groups; the group before was number last.
    pub fn step_by(
        self,
        image: &[u8],
        n: u64,
        groups: &[u64],
        fragments: &[u64],
        ids: &[u64; 512],
        sizes: &[u64; 512],
        hints: &mut [u64; 1536],
        last: u64,
    ) -> Option<Record>
        ensures { Tabled image.now groups.now ids.now sizes.now → reached_of result
            ≡ step_to image.now n groups.now (ahead_of image.now fragments.now self) self.at }
    {
        let Some(record) = self.quick(image, n, groups, fragments, ids, sizes, hints, last) else {
            return self.step(image, n, groups, fragments);
        };
        note(hints, last, record.group);
        Some(record)
    }
}
