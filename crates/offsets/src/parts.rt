// Words shared out to the groups of a DG: a part for each, one after the other.
ghost use Rattle.std.specs.Prelude.{true, ◌≡◌, ◌<◌, length, get_or};
ghost use Rattle.offsets.specs.Parts.{Parts};

use records::fragment::word_at;

// How many words group j is to have: as many as it is thought to have records, none for VLSD storage.
fn part_size(sizes: &[u64; 512], counts: &[u64], j: usize) -> u64
    requires { j < 512 }
    ensures { get_or sizes.now j 0 ≡ 0 → result ≡ 0 }
{
    if sizes[j] == 0 {
        return 0;
    }
    word_at(counts, j as u64)
}

// The parts of the words from begin up to end. Whether they have room.
pub(crate) fn share_out(
    bounds: &mut [u64; 513],
    sizes: &[u64; 512],
    counts: &[u64],
    begin: u64,
    end: u64,
) -> bool
    requires { length bounds.old ≡ 513 }
    ensures { result ≡ true → Parts sizes.now bounds.new begin end 512 }
{
    if end < begin {
        return false;
    }
    bounds[0] = begin;
    let mut at = begin;
    for j in 0..512 {
        let n = part_size(sizes, counts, j);
        if end - at < n {
            return false;
        }
        at += n;
        bounds[j + 1] = at;
    }
    true
}
