// The kept columns: their references to attachments (28), and their words, eight a column and three for the fragment of its signal data.
ghost use Rattle.std.specs.Prelude.{List, ◌≡◌, ℕ, ◌+◌, ◌≤◌, ◌<◌};
ghost use Rattle.base.specs.Choice.{if_eq};
ghost use Rattle.fields.specs.Answer.{verdict_of};
ghost use Rattle.plan.specs.Channel.{is_master_type};
ghost use Rattle.work_words.specs.PlanWords.{time_word, master_word};
ghost use Rattle.sheet.specs.Sheet.{master_of};
ghost use Rattle.thin.specs.Kept.{new_number, new_master, kept_column, kept_columns, photos_kept};
ghost use Rattle.taking.specs.Opened.{column_in, columns_in};
ghost use Rattle.taking.specs.Marks.{Marked, photos_at};
ghost use Rattle.taking.specs.Words.{SoundSignal, SignalPut, ColumnPut, ColumnsPut};

use crate::opened::File;
use crate::sound::signal_place;
use channels::is_master_type;
use fields::refusal::Refusal;
use photos::photos_in;
use planning::words::put_words;
use ranges::block::bytes_at;
use ranges::form::cycles_of;
use sheets::line::master_of;

// 28, of column k, where it is kept.
fn photo_kept(file: &File, marks: &[bool; 512], k: u64) -> Result<(), Refusal>
    requires { k < file.now.count }
    ensures { (ns : List ℕ) → Marked ns marks.now → verdict_of result
        ≡ photos_at file.now.image.now file.now.source.now ns k }
{
    if marks[k as usize] {
        return Ok(());
    }
    photos_in(true, file.image, file.channel(k))
}

// Of all columns, one after the other.
pub(crate) fn photos_kept(file: &File, marks: &[bool; 512]) -> Result<(), Refusal>
    ensures { (ns : List ℕ) → Marked ns marks.now → verdict_of result
        ≡ photos_kept file.now.image.now (kept_columns file.now.image.now ns (columns_in file.now)) }
{
    for k in 0..file.count {
        photo_kept(file, marks, k)?;
    }
    Ok(())
}

// The number that column m has among those kept: how many before it are.
fn new_number(marks: &[bool; 512], m: u64) -> u64
    requires { m ≤ 512 }
    ensures { (result ≤ m) × ((ns : List ℕ) → Marked ns marks.now → result ≡ new_number ns m) }
{
    let mut count: u64 = 0;
    for k in 0..m {
        if !marks[k as usize] {
            count += 1;
        }
    }
    count
}

// The word of the master of the CG at g.
fn master_word(file: &File, marks: &[bool; 512], g: u64) -> u64
    ensures { (ns : List ℕ) → Marked ns marks.now → result
        ≡ master_word (new_master ns (master_of file.now.image.now (columns_in file.now) g)) }
{
    match master_of(file.image, file.source, file.count, g) {
        Some(number) => new_number(marks, number) + 1,
        None => 0,
    }
}

// 1 for a time column.
fn time_word(image: &[u8], c: u64) -> u64
    ensures { result ≡ time_word (is_master_type image.now c) }
{
    u64::from(is_master_type(image, c))
}

// The fragment of the signal data of the CN at c, as number n, where it has some; answers how many there are.
fn put_signal(image: &[u8], fragments: &mut [u64], n: u64, c: u64) -> u64
    requires { (n ≤ 512) × SoundSignal image.now c }
    ensures { SignalPut image.now n c result fragments.old fragments.new }
{
    let a = signal_place(image, c);
    if a == 0 {
        return 0;
    }
    put_words(fragments, 3 * n, &[a + 24, bytes_at(image, a), 0]);
    1
}

// The word of signal data that so many fragments are of, with n fragments before.
fn signal_word(n: u64, count: u64) -> u64
    requires { n ≤ 512 }
    ensures { result ≡ if_eq count 0 0 (n + 1) }
{
    if count == 0 { 0 } else { n + 1 }
}

// Column k, as kept column j, with so many fragments of signal data before it; answers how many there are with its own.
fn put_column(
    file: &File,
    marks: &[bool; 512],
    k: u64,
    j: u64,
    pieces: u64,
    fragments: &mut [u64],
    columns: &mut [u64],
) -> u64
    requires { (k < file.now.count) × (j ≤ k) × (pieces ≤ k) × SoundSignal file.now.image.now (column_in file.now k).cn }
    ensures { ((ns : List ℕ) → Marked ns marks.now
        → ColumnPut (kept_column file.now.image.now ns (columns_in file.now) (column_in file.now k)) j pieces result
        fragments.old fragments.new columns.old columns.new) × (result ≤ pieces + 1) }
{
    let g = file.group(k);
    let c = file.channel(k);
    let own = put_signal(file.image, fragments, pieces, c);
    let column = [
        c,
        g,
        file.parent(k),
        cycles_of(file.image, g),
        time_word(file.image, c),
        master_word(file, marks, g),
        signal_word(pieces, own),
        own,
    ];
    put_words(columns, 8 * j, &column);
    pieces + own
}

// The words of the kept columns, and of the fragments of their signal data; answers how many are kept.
pub(crate) fn put_kept(
    file: &File,
    marks: &[bool; 512],
    fragments: &mut [u64],
    columns: &mut [u64],
) -> u64
    requires { (k : ℕ) → k < file.now.count → SoundSignal file.now.image.now (column_in file.now k).cn }
    ensures { (result ≤ file.now.count) × ((ns : List ℕ) → Marked ns marks.now
        → ColumnsPut (kept_columns file.now.image.now ns (columns_in file.now)) result
        fragments.old fragments.new columns.old columns.new) }
{
    let mut j: u64 = 0;
    let mut pieces: u64 = 0;
    for k in 0..file.count {
        if marks[k as usize] {
            continue;
        }
        pieces = put_column(file, marks, k, j, pieces, fragments, columns);
        j += 1;
    }
    j
}
