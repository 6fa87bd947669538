// The offsets of all records of a DG, each noted in its group's part of lent words.
ghost use Rattle.std.specs.Prelude.{length};
ghost use Rattle.offsets.specs.Parts.{Ordered, Zeros, NotesRecord, Passes};

use places::frame::next_record;
use places::stretch::Scan;

// The next record of group j lies at place: noted in its part, if there is room.
fn note(words: &mut [u64], counts: &mut [u64; 512], bounds: &[u64; 513], j: u64, place: u64)
    requires { Ordered bounds.now (length words.old) 512 }
    ensures { NotesRecord bounds.now j place counts.old words.old counts.new words.new }
{
    if 511 < j {
        return;
    }
    let m = j as usize;
    let first = bounds[m];
    let n = counts[m];
    if bounds[m + 1] - first <= n {
        return;
    }
    let more = n + 1;
    words[(first + n) as usize] = place;
    counts[m] = more;
}

// All records of the DG, one after the other; ids have n bytes.
pub(crate) fn pass(
    words: &mut [u64],
    counts: &mut [u64; 512],
    bounds: &[u64; 513],
    image: &[u8],
    n: u64,
    groups: &[u64],
    fragments: &[u64],
    ids: &[u64; 512],
    sizes: &[u64; 512],
    hints: &mut [u64; 1536],
)
    requires ordered { Ordered bounds.now (length words.old) 512 }
    requires zeros { Zeros counts.old }
    ensures { Passes image.now n groups.now fragments.now ids.now sizes.now
        bounds.now words.old counts.new words.new }
{
    let mut c = Scan {
        at: 0,
        position: 0,
        left: 0,
        offset: 0,
        number: 0,
    };
    let mut last: u64 = 0;
    'records: loop {
        let next = next_record(image, n, groups, fragments, ids, sizes, hints, last, c);
        let Some(r) = next else {
            return;
        };
        let group = r.group;
        note(words, counts, bounds, group, r.place);
        c = r.past;
        last = group;
    }
}
