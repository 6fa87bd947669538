// The offsets of all records of a DG: words are shared out, records noted in one framing, and entries put.
ghost use Rattle.std.specs.Prelude.{true, false, ◌≡◌, ◌+◌, ◌≤◌, length, set};
ghost use Rattle.offsets.specs.Offsets.{entry_at, used_in, KeepsOffsets};
ghost use Rattle.offsets.specs.Parts.{Zeros, Frames, PutsEntry, PutsEntries};

use crate::note::pass;
use crate::parts::share_out;
use records::fragment::word_at;
use records::group::id_size;
use records::table::make_tables;

// Entry i: the group at g of the DG at d has n offsets, from word first on.
fn put_entry(words: &mut [u64], i: u64, d: u64, g: u64, first: u64, n: u64)
    requires { entry_at i + 4 ≤ length words.old }
    ensures { PutsEntry words.old words.new i d g first n }
{
    let at = (8 + 4 * i) as usize;
    words[at..at + 4].copy_from_slice(&[d, g, first, n]);
}

// The entries of all groups of the DG at d, from entry i on.
fn put_entries(
    words: &mut [u64],
    i: u64,
    d: u64,
    groups: &[u64],
    bounds: &[u64; 513],
    counts: &[u64; 512],
)
    requires groups_len_bound { length groups.now ≤ 512 }
    requires groups_in_bounds { entry_at (i + length groups.now) ≤ length words.old }
    ensures { PutsEntries words.old words.new i d groups.now bounds.now counts.now
        (length groups.now) }
{
    for j in 0..groups.len() {
        put_entry(words, i + j as u64, d, groups[j], bounds[j], counts[j]);
    }
}

// The words from begin on shared out to the groups of the DG at d, and its records noted there. Whether there was room; bounds and counts
// have what was noted.
fn frame_all(
    words: &mut [u64],
    image: &[u8],
    d: u64,
    groups: &[u64],
    counts: &[u64],
    fragments: &[u64],
    begin: u64,
    bounds: &mut [u64; 513],
    noted: &mut [u64; 512],
) -> bool
    requires in_bounds { 2 ≤ length groups.now }
    requires bounds_len { length bounds.old ≡ 513 }
    requires zeros { Zeros noted.old }
    ensures { (result ≡ true → Frames image.now d groups.now fragments.now begin words.old
        bounds.new noted.new words.new)
        × (result ≡ false → words.new ≡ words.old) }
{
    let n = id_size(image, d);
    let mut ids = [0u64; 512];
    let mut sizes = [0u64; 512];
    let mut hints = [0u64; 1536];
    make_tables(image, groups, &mut ids, &mut sizes, &mut hints);
    let room = words.len() as u64;
    if !share_out(bounds, &sizes, counts, begin, room) {
        return false;
    }
    pass(
        words, noted, bounds, image, n, groups, fragments, &ids, &sizes, &mut hints,
    );
    true
}

// So many entries, and words used up to a place.
fn count_entries(words: &mut [u64], n: u64, used: u64)
    requires { 2 ≤ length words.old }
    ensures { words.new ≡ set (set words.old 1 used) 0 n }
{
    words[1] = used;
    words[0] = n;
}

// The first word past the entries and all that is used.
fn free_from(words: &[u64]) -> u64
    ensures { (2056 ≤ result) × (used_in words.now ≤ result) }
{
    word_at(words, 1).max(2056)
}

// The offsets of all records of the DG at d, if they have room; counts tells how many records each group is thought to have.
pub fn fill_offsets(
    words: &mut [u64],
    image: &[u8],
    d: u64,
    groups: &[u64],
    counts: &[u64],
    fragments: &[u64],
)
    ensures { KeepsOffsets image.now d groups.now fragments.now words.old words.new }
{
    let n = groups.len() as u64;
    if n < 2 {
        return;
    }
    if words.len() < 2056 {
        return;
    }
    let kept = words[0];
    if 512 < kept {
        return;
    }
    if 512 - kept < n {
        return;
    }
    let begin = free_from(words);
    let mut bounds = [0u64; 513];
    let mut noted = [0u64; 512];
    let room = frame_all(
        words,
        image,
        d,
        groups,
        counts,
        fragments,
        begin,
        &mut bounds,
        &mut noted,
    );
    if !room {
        return;
    }
    put_entries(words, kept, d, groups, &bounds, &noted);
    count_entries(words, kept + n, bounds[512]);
}
