// Reading: what is met is kept in lent words, blocks in `source` and fragments in `fragments`; an index of the blocks tells whether one is met again.
ghost use Rattle.std.specs.Prelude.{◌≡◌, List, ℕ, [], ◌+◌, ◌≤◌, ◌<◌, length, set};
ghost use Rattle.fields.specs.Answer.{verdict_of};
ghost use Rattle.mdf.specs.Chain.{file_limits};
ghost use Rattle.mdf.specs.Walk.{id_size_in};
ghost use Rattle.chains.specs.Node.{limits_for};
ghost use Rattle.work_words.specs.Words.{source_words};
ghost use Rattle.index.specs.Index.{Indexed};
ghost use Rattle.reading.specs.Steps.{after, indexed_after, visited, met_cg, met_cn, after_data, data_in};
ghost use Rattle.reading.specs.Walked.{given, walked_from, walked};
ghost use Rattle.reading.specs.ClearLaws.{Filled};
ghost use Rattle.reading.specs.Spans.{span_at};
ghost use Rattle.reading.specs.Reading.{zeros, fragment_room, read_over, left, read_into};
ghost use Rattle.reading.specs.Holding.{Holding};
ghost use Rattle.reading.specs.Counting.{Ready, counted_dg, end_at, Counted, CountedIn};

use crate::answer::{Read, Span};
use blocks::block::{CG, CN, DG, HD, Wanted, block_at, link_at};
use blocks::name::name_at;
use chains::chain::chain;
use fields::refusal::Refusal;
use identification::identify;
use index::{enter, is_met};
use records::group::id_size;
use records::several::count_groups;

// A block met: 11 before it is read, its checks, then 19. Its address and mark go into the words, its number into the index.
fn visit(
    image: &[u8],
    source: &mut [u64],
    index: &mut [u16; 4096],
    n: u64,
    m: u64,
    mark: u64,
    want: Wanted,
    a: u64,
) -> Result<(), Refusal>
    requires { (n ≤ 1536) × (source_words ≤ length source.old) × Indexed 1 source.old n index.old }
    ensures met { after result source.new
        ≡ visited (record { kind = want.kind; links = want.links; bytes = want.bytes }) image.now source.old n m mark a }
    ensures indexed { indexed_after result source.new n index.new }
{
    if is_met(source, index, n, a) {
        return Err(Refusal::MetAgain(a));
    }
    block_at(want, image, a)?;
    if 512 <= m {
        return Err(Refusal::OverLimit(a));
    }
    let i = n as usize;
    source[i] = a;
    source[1536 + i] = mark;
    enter(index, n, a);
    Ok(())
}

// A CG, its name, and its address among the groups.
fn met_cg(
    image: &[u8],
    source: &mut [u64],
    index: &mut [u16; 4096],
    n: u64,
    m: u64,
    a: u64,
) -> Result<(), Refusal>
    requires { (n ≤ 1536) × (source_words ≤ length source.old) × Indexed 1 source.old n index.old }
    ensures met { after result source.new ≡ met_cg image.now source.old n m a }
    ensures indexed { indexed_after result source.new n index.new }
{
    let want = Wanted {
        kind: CG,
        links: 6,
        bytes: 32,
    };
    visit(image, source, index, n, m, 1, want, a)?;
    name_at(image, link_at(image, a, 2))?;
    source[3072 + m as usize] = a;
    Ok(())
}

// A CN and its name.
fn met_cn(
    image: &[u8],
    source: &mut [u64],
    index: &mut [u16; 4096],
    n: u64,
    m: u64,
    a: u64,
) -> Result<(), Refusal>
    requires { (n ≤ 1536) × (source_words ≤ length source.old) × Indexed 1 source.old n index.old }
    ensures met { after result source.new ≡ met_cn image.now source.old n m a }
    ensures indexed { indexed_after result source.new n index.new }
{
    let want = Wanted {
        kind: CN,
        links: 8,
        bytes: 72,
    };
    visit(image, source, index, n, m, 0, want, a)?;
    name_at(image, link_at(image, a, 2))
}

// 13: the id size of the DG at a.
fn id_size_in(image: &[u8], a: u64) -> Result<(), Refusal>
    ensures { verdict_of result ≡ id_size_in image.now a }
{
    let size = id_size(image, a);
    if size < 3 || size == 4 || size == 8 {
        return Ok(());
    }
    Err(Refusal::IdSize(a))
}

// The DG at a: its data chain and id size, with n fragments before it; answers how many there are then.
fn take_data(
    file: bool,
    image: &[u8],
    fragments: &mut [u64],
    n: u64,
    a: u64,
) -> Result<u64, Refusal>
    ensures { after_data result fragments.new ≡ data_in (limits_for file) image.now fragments.old n a }
{
    let count = chain(false, file, image, fragments, n, link_at(image, a, 2))?;
    id_size_in(image, a)?;
    Ok(count)
}

// The walk from the first DG: each DG with its data, its CG with their names, their CN with their names.
// Nested loops left by a label with the refusal, and no `?`: the form that document 01 names for the walk.
fn walk_from(
    file: bool,
    image: &[u8],
    source: &mut [u64],
    index: &mut [u16; 4096],
    fragments: &mut [u64],
    first: u64,
) -> Result<Read, Refusal>
    requires { (source_words ≤ length source.old) × Indexed 1 source.old 0 index.old }
    ensures { given result source.new fragments.new
        ≡ walked_from (limits_for file) image.now first source.old fragments.old }
{
    let want = Wanted {
        kind: DG,
        links: 4,
        bytes: 1,
    };
    let mut n: u64 = 0;
    let mut ndg: u64 = 0;
    let mut ncg: u64 = 0;
    let mut ncn: u64 = 0;
    let mut nf: u64 = 0;
    let mut dg = first;
    let answer = 'walk: loop {
        if dg == 0 {
            break 'walk Ok(Read {
                items: n,
                groups: ncg,
                fragments: nf,
            });
        }
        let met = visit(image, source, index, n, ndg, 2 + nf, want, dg);
        if let Err(refusal) = met {
            break 'walk Err(refusal);
        }
        n += 1;
        ndg += 1;
        let taken = take_data(file, image, fragments, nf, dg);
        match taken {
            Err(refusal) => {
                break 'walk Err(refusal);
            }
            Ok(count) => {
                nf = count;
            }
        }
        let mut cg = link_at(image, dg, 1);
        dg = link_at(image, dg, 0);
        'groups: while cg != 0 {
            let met = met_cg(image, source, index, n, ncg, cg);
            if let Err(refusal) = met {
                break 'walk Err(refusal);
            }
            n += 1;
            ncg += 1;
            let mut cn = link_at(image, cg, 1);
            cg = link_at(image, cg, 0);
            'channels: while cn != 0 {
                let met = met_cn(image, source, index, n, ncn, cn);
                if let Err(refusal) = met {
                    break 'walk Err(refusal);
                }
                n += 1;
                ncn += 1;
                cn = link_at(image, cn, 0);
            }
        }
    };
    answer
}

// HD, which stands at 64, then the walk from its first DG.
fn walk(
    file: bool,
    image: &[u8],
    source: &mut [u64],
    fragments: &mut [u64],
) -> Result<Read, Refusal>
    requires { source_words ≤ length source.old }
    ensures { given result source.new fragments.new
        ≡ walked (limits_for file) image.now source.old fragments.old }
{
    let want = Wanted {
        kind: HD,
        links: 6,
        bytes: 0,
    };
    block_at(want, image, 64)?;
    let mut index = [0u16; 4096];
    walk_from(
        file,
        image,
        source,
        &mut index,
        fragments,
        link_at(image, 64, 0),
    )
}

// The walk of a file whose columns are read: its blocks are kept, its fragments counted only.
pub fn walk_file(image: &[u8], source: &mut [u64; 4096]) -> Result<Read, Refusal>
    ensures { given result source.new [] ≡ walked file_limits image.now source.old [] }
{
    let mut fragments = [0u64; 0];
    walk(true, image, source, &mut fragments)
}

// Eight words from i on zero; where they are already, none is stored to.
fn clear_eight(words: &mut [u64], i: usize)
    requires { i + 8 ≤ length words.old }
    ensures { words.new ≡ set (set (set (set (set (set (set (set words.old i 0) (i + 1) 0) (i + 2) 0) (i + 3) 0) (i + 4) 0) (i + 5) 0) (i + 6) 0) (i + 7) 0 }
{
    let any = words[i]
        | words[i + 1]
        | words[i + 2]
        | words[i + 3]
        | words[i + 4]
        | words[i + 5]
        | words[i + 6]
        | words[i + 7];
    if any == 0 {
        return;
    }
    words[i] = 0;
    words[i + 1] = 0;
    words[i + 2] = 0;
    words[i + 3] = 0;
    words[i + 4] = 0;
    words[i + 5] = 0;
    words[i + 6] = 0;
    words[i + 7] = 0;
}

// Every word from index from on zero.
fn clear_from(words: &mut [u64], from: usize)
    ensures { (w : List ℕ) → Filled w from words.old → words.new ≡ zeros w }
{
    for i in from..words.len() {
        if words[i] != 0 {
            words[i] = 0;
        }
    }
}

// Every word zero. Eight that are already aren't stored to: memory that nobody has touched stays so. Eight by eight for speed: one by one the compiler
// makes a loop that takes three times as long.
pub fn clear(words: &mut [u64])
    ensures { words.new ≡ zeros words.old }
{
    let eights = words.len() / 8;
    for n in 0..eights {
        clear_eight(words, 8 * n);
    }
    clear_from(words, 8 * eights);
}

// The blocks from i up to the next DG or to n: where they end, and how many CG are among them.
fn span(source: &[u64], i: u64, n: u64) -> Span
    requires { (i ≤ n) × (n ≤ 1536) × (source_words ≤ length source.now) }
    ensures { result ≡ span_at source.now i n }
{
    let mut groups: u64 = 0;
    for next in i..n {
        let mark = source[1536 + next as usize];
        if 1 < mark {
            return Span { next, groups };
        }
        groups += mark;
    }
    Span { next: n, groups }
}

// The number of fragments before the DG at block i, or all where i is past the last block.
fn end_at(source: &[u64], i: u64, n: u64, all: u64) -> u64
    requires { (n ≤ 1536) × (source_words ≤ length source.now) }
    ensures { result ≡ end_at source.now i n all }
{
    if n <= i {
        return all;
    }
    source[1536 + i as usize].saturating_sub(2)
}

// The counts of the DG at block i: its groups stand from g on, and its fragments end before end.
fn count_dg(
    image: &[u8],
    source: &[u64],
    fragments: &[u64],
    i: u64,
    g: u64,
    groups: u64,
    end: u64,
    counts: &mut [u64],
) -> Result<(), Refusal>
    requires { Ready source.now fragments.now i g groups end counts.old }
    ensures { after result counts.new
        ≡ counted_dg image.now source.now fragments.now i g groups end counts.old }
{
    let k = i as usize;
    let d = source[k];
    let from = 3 * (source[1536 + k] as usize - 2);
    let to = 3 * end as usize;
    let first = g as usize;
    let a = 3072 + first;
    let b = a + groups as usize;
    count_groups(
        image,
        d,
        &source[a..b],
        &fragments[from..to],
        &mut counts[first..],
    )
}

// The counts of all groups, DG by DG.
fn count_all(
    image: &[u8],
    source: &[u64],
    fragments: &[u64],
    n: u64,
    nf: u64,
    counts: &mut [u64],
) -> Result<(), Refusal>
    requires { Holding source.now fragments.now n nf × (512 ≤ length counts.old) }
    ensures { Counted image.now source.now fragments.now n nf counts.old result counts.new }
{
    let mut i: u64 = 0;
    let mut g: u64 = 0;
    while i < n {
        let own = span(source, i + 1, n);
        let end = end_at(source, own.next, n, nf);
        count_dg(image, source, fragments, i, g, own.groups, end, counts)?;
        i = own.next;
        g += own.groups;
    }
    Ok(())
}

// The counts of all groups, and their words, past the groups' own.
fn count_into(
    image: &[u8],
    source: &mut [u64],
    fragments: &[u64],
    found: Read,
) -> Result<(), Refusal>
    requires { Holding source.old fragments.now found.items found.fragments × (found.groups ≤ 512) }
    ensures { CountedIn image.now source.old fragments.now found.items found.groups found.fragments
        result source.new }
{
    let mut counts = [0u64; 512];
    count_all(
        image,
        source,
        fragments,
        found.items,
        found.fragments,
        &mut counts,
    )?;
    let k = found.groups as usize;
    source[3584..3584 + k].copy_from_slice(&counts[..k]);
    Ok(())
}

// Identification, the walk, the counts.
fn read_all(image: &[u8], source: &mut [u64], fragments: &mut [u64]) -> Result<Read, Refusal>
    requires { (source_words ≤ length source.old) × (fragment_room ≤ length fragments.old) }
    ensures { given result source.new fragments.new
        ≡ read_over image.now source.old fragments.old }
{
    identify(image)?;
    let found = walk(false, image, source, fragments)?;
    count_into(image, source, fragments, found)?;
    Ok(found)
}

// A recording is read into lent words: 4,096 for its blocks, groups and counts, 3,072 for its fragments.
pub fn read(image: &[u8], source: &mut [u64], fragments: &mut [u64]) -> Result<Read, Refusal>
    ensures { left result source.new fragments.new
        ≡ read_into image.now source.old fragments.old }
{
    if source.len() < 4096 || fragments.len() < 3072 {
        return Err(Refusal::Arguments);
    }
    let answer = read_all(image, source, fragments);
    if answer.is_err() {
        clear(source);
        clear(fragments);
    }
    answer
}
