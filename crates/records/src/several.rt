// A DG with several groups: its checks, and the counts of its groups.
ghost use Rattle.std.specs.Prelude.{◌≡◌, [], ◌∷◌, false, ◌+◌, ◌<◌, ◌≤◌, length, get_or, set, drop, replicate};
ghost use Rattle.base.specs.Blit.{blit};
ghost use Rattle.base.specs.Checked.{fine};
ghost use Rattle.fields.specs.Answer.{verdict_of};
ghost use Rattle.work_words.specs.Words.{fragments_of};
ghost use Rattle.mdf.specs.Records.{most64, ranges_in, size_of, is_id_of, equal_ids, frames, unsorted_frames};
ghost use Rattle.mdf.specs.Count.{count_groups};
ghost use Rattle.records.specs.Several.{size_in, several_in, tallied, laid, laid_counts};

use crate::fragment::{any_dv, ranges_in, word_at};
use crate::framing::{Framing, inside};
use crate::group::{id_size, record_id};
use crate::sorted::{count_one, sum_within};
use crate::table::{make_tables, put};
use fields::refusal::Refusal;

// Whether one of the groups has the id.
fn is_id_of(image: &[u8], id: u64, groups: &[u64]) -> bool
    ensures { result ≡ is_id_of image.now id groups.now }
{
    for i in 0..groups.len() {
        if record_id(image, groups[i]) == id {
            return true;
        }
    }
    false
}

// Whether two groups have the same id.
pub fn equal_ids(image: &[u8], groups: &[u64]) -> bool
    ensures { result ≡ equal_ids image.now groups.now }
{
    for i in 0..groups.len() {
        if is_id_of(image, record_id(image, groups[i]), &groups[i + 1..]) {
            return true;
        }
    }
    false
}

// 19: the bytes of all fragments exceed 2^64 - 1.
fn size_in(d: u64, fragments: &[u64]) -> Result<(), Refusal>
    ensures { verdict_of result ≡ size_in d (fragments_of fragments.now) }
{
    let n = fragments.len() as u64;
    let mut i: u64 = 0;
    let mut sum: u64 = 0;
    while 2 < n - i {
        sum = sum_within(d, sum, word_at(fragments, i + 1))?;
        i += 3;
    }
    Ok(())
}

// 14, 4, 19: equal ids, missing ids, DV, ranges, bytes.
pub fn several_in(image: &[u8], d: u64, groups: &[u64], fragments: &[u64]) -> Result<(), Refusal>
    ensures { verdict_of result ≡ several_in image.now d groups.now (fragments_of fragments.now) }
{
    if equal_ids(image, groups) {
        return Err(Refusal::Groups(d));
    }
    if id_size(image, d) == 0 {
        return Err(Refusal::Groups(d));
    }
    if any_dv(fragments) {
        return Err(Refusal::Groups(d));
    }
    ranges_in(image, fragments)?;
    size_in(d, fragments)
}

// The first n words zero.
pub fn clear(words: &mut [u64], n: u64)
    ensures { words.new ≡ blit 0 (replicate n 0) words.old }
{
    let k = n.min(words.len() as u64) as usize;
    words[..k].fill(0);
}

// One more at word k, if there is one.
fn count_up(words: &mut [u64], k: u64)
    requires { get_or words.old k 0 < 18446744073709551615 }
    ensures { words.new ≡ set words.old k (get_or words.old k 0 + 1) }
{
    let i = k as usize;
    if i < words.len() {
        words[i] += 1;
    }
}

// The records of all groups, counted; ids have n bytes. Apart in the machine code, so that its loop has the registers.
#[inline(never)]
fn count_frames(
    image: &[u8],
    n: u64,
    groups: &[u64],
    fragments: &[u64],
    counts: &mut [u64],
) -> Result<(), Refusal>
    requires { (0 < n) × (ranges_in image.now (fragments_of fragments.now) ≡ fine)
        × (size_of (fragments_of fragments.now) ≤ most64) × (equal_ids image.now groups.now ≡ false) }
    ensures { laid (verdict_of result) counts.new
        ≡ laid_counts (tallied (length groups.now)
        (frames image.now n groups.now (fragments_of fragments.now)))
        (length groups.now) counts.old }
{
    let k = groups.len() as u64;
    let words = fragments.len() as u64;
    let mut ids = [0u64; 512];
    let mut sizes = [0u64; 512];
    let mut hints = [0u64; 1536];
    make_tables(image, groups, &mut ids, &mut sizes, &mut hints);
    clear(counts, k);
    let mut spot = Framing {
        at: 0,
        position: 0,
        left: 0,
    };
    let mut last: u64 = 0;
    'records: loop {
        if inside(image, spot.position, spot.left) == 0 {
            if words < spot.at {
                return Ok(());
            }
            if words - spot.at < 3 {
                return Ok(());
            }
            spot = Framing {
                at: spot.at + 3,
                position: word_at(fragments, spot.at),
                left: word_at(fragments, spot.at + 1),
            };
        } else {
            let step = spot.step_by(image, n, groups, fragments, &ids, &sizes, &mut hints, last);
            let Some(record) = step else {
                clear(counts, k);
                return Err(Refusal::BrokenRecord(spot.position));
            };
            count_up(counts, record.group);
            spot = record.next;
            last = record.group;
        }
    }
}

// The counts of several groups: the checks, then the records to the end.
pub fn count_several(
    image: &[u8],
    d: u64,
    groups: &[u64],
    fragments: &[u64],
    counts: &mut [u64],
) -> Result<(), Refusal>
    ensures { laid (verdict_of result) counts.new
        ≡ laid_counts (tallied (length groups.now)
        (unsorted_frames image.now d groups.now (fragments_of fragments.now)))
        (length groups.now) counts.old }
{
    if let Err(refusal) = several_in(image, d, groups, fragments) {
        clear(counts, groups.len() as u64);
        return Err(refusal);
    }
    count_frames(image, id_size(image, d), groups, fragments, counts)
}

// The count of a group that is alone in its DG.
fn count_alone(
    image: &[u8],
    d: u64,
    groups: &[u64],
    fragments: &[u64],
    counts: &mut [u64],
) -> Result<(), Refusal>
    requires { length groups.now ≡ 1 }
    ensures { laid (verdict_of result) counts.new
        ≡ laid_counts (count_groups image.now d groups.now (fragments_of fragments.now))
        (length groups.now) counts.old }
{
    match count_one(image, d, groups[0], fragments) {
        Ok(n) => {
            put(counts, 0, n);
            Ok(())
        }
        Err(refusal) => {
            put(counts, 0, 0);
            Err(refusal)
        }
    }
}

// The counts of a DG's groups: of none, of one by its bytes, of several by reading to the end.
pub fn count_groups(
    image: &[u8],
    d: u64,
    groups: &[u64],
    fragments: &[u64],
    counts: &mut [u64],
) -> Result<(), Refusal>
    ensures { laid (verdict_of result) counts.new
        ≡ laid_counts (count_groups image.now d groups.now (fragments_of fragments.now))
        (length groups.now) counts.old }
{
    if groups.len() == 0 {
        return Ok(());
    }
    if groups.len() == 1 {
        return count_alone(image, d, groups, fragments, counts);
    }
    count_several(image, d, groups, fragments, counts)
}
