// The data of each DG: its records where a column of it has bytes, and the signal data of its columns.
ghost use Rattle.std.specs.Prelude.{◌≡◌, ◌*◌, ◌-◌, ◌≤◌, length};
ghost use Rattle.base.specs.Blit.{part};
ghost use Rattle.fields.specs.Answer.{verdict_of};
ghost use Rattle.work_words.specs.Words.{fragments_of};
ghost use Rattle.mdf.specs.Records.{sorted_in};
ghost use Rattle.planning.specs.Items.{items_from};
ghost use Rattle.planning.specs.DataWords.{ranges_over, signal_over, signals_over, records_over, data_over, all_data_over};

use crate::span::{end_of, first_group, own_groups};
use crate::stage::any_nonempty;
use crate::words::word;
use fields::refusal::Refusal;
use records::fragment::ranges_in;
use records::sorted::sorted_in;

// 4: the ranges of m fragments from number i on.
fn ranges_of(image: &[u8], fragments: &[u64], i: u64, m: u64) -> Result<(), Refusal>
    requires { 3072 ≤ length fragments.now }
    ensures { verdict_of result ≡ ranges_over image.now fragments.now i m }
{
    if 1024 < i || 1024 - i < m {
        return Ok(());
    }
    let from = 3 * i as usize;
    let to = from + 3 * m as usize;
    ranges_in(image, &fragments[from..to])
}

// The signal data of column k, if it is from the DG at d.
fn signal_in(
    image: &[u8],
    fragments: &[u64],
    columns: &[u64],
    k: u64,
    d: u64,
) -> Result<(), Refusal>
    requires { (k ≤ 4194304) × (3072 ≤ length fragments.now) }
    ensures { verdict_of result ≡ signal_over image.now columns.now fragments.now d k }
{
    if word(columns, 8 * k + 2) != d {
        return Ok(());
    }
    let signal = word(columns, 8 * k + 6);
    if signal == 0 {
        return Ok(());
    }
    let m = word(columns, 8 * k + 7);
    ranges_of(image, fragments, signal - 1, m)
}

// The signal data of all n columns.
fn signals_in(
    image: &[u8],
    fragments: &[u64],
    columns: &[u64],
    n: u64,
    d: u64,
) -> Result<(), Refusal>
    requires { (n ≤ 4194304) × (3072 ≤ length fragments.now) }
    ensures { verdict_of result ≡ signals_over image.now columns.now fragments.now d 0 n }
{
    for k in 0..n {
        signal_in(image, fragments, columns, k, d)?;
    }
    Ok(())
}

// The records of the group at g, alone in the DG at d, in the fragments from number i on up to end.
fn sorted_of(
    image: &[u8],
    fragments: &[u64],
    d: u64,
    g: u64,
    i: u64,
    end: u64,
) -> Result<(), Refusal>
    requires { (end ≤ 1024) × (3072 ≤ length fragments.now) }
    ensures { verdict_of result ≡ sorted_in image.now d g (fragments_of (part (3 * i) (3 * (end - i)) fragments.now)) }
{
    let from = 3 * i.min(end) as usize;
    let to = 3 * end as usize;
    sorted_in(image, d, g, &fragments[from..to])
}

// The records of the DG at d, its fragments from number m on, its items from number i on.
fn records_of(
    image: &[u8],
    source: &[u64],
    fragments: &[u64],
    n: u64,
    nf: u64,
    i: u64,
    d: u64,
    m: u64,
) -> Result<(), Refusal>
    requires { (n ≤ 1536) × (nf ≤ 1024) × (3072 ≤ length fragments.now) }
    ensures { verdict_of result ≡ records_over image.now fragments.now nf d m (items_from source.now i (n - i)) }
{
    if own_groups(source, n, i) != 1 {
        return Ok(());
    }
    let g = first_group(source, n, i);
    let end = end_of(source, n, i, nf).min(nf);
    sorted_of(image, fragments, d, g, m, end)
}

// The records, then the signal data; there are nc columns.
fn data_in(
    image: &[u8],
    source: &[u64],
    fragments: &[u64],
    columns: &[u64],
    n: u64,
    nf: u64,
    nc: u64,
    i: u64,
    d: u64,
    m: u64,
) -> Result<(), Refusal>
    requires { (n ≤ 1536) × (nf ≤ 1024) × (nc ≤ 4194304) × (3072 ≤ length fragments.now) }
    ensures { verdict_of result
        ≡ data_over image.now columns.now fragments.now nf nc d m (items_from source.now i (n - i)) }
{
    if any_nonempty(image, columns, nc, d) {
        records_of(image, source, fragments, n, nf, i, d, m)?;
    }
    signals_in(image, fragments, columns, nc, d)
}

// All DG of n items.
pub(crate) fn all_data_in(
    image: &[u8],
    source: &[u64],
    fragments: &[u64],
    columns: &[u64],
    n: u64,
    nf: u64,
    nc: u64,
) -> Result<(), Refusal>
    requires { (n ≤ 1536) × (nf ≤ 1024) × (nc ≤ 4194304) × (3072 ≤ length fragments.now) }
    ensures { verdict_of result
        ≡ all_data_over image.now columns.now fragments.now nf nc (items_from source.now 0 n) }
{
    for i in 0..n {
        let mark = word(source, 1536 + i);
        let d = word(source, i);
        if 1 < mark {
            data_in(
                image,
                source,
                fragments,
                columns,
                n,
                nf,
                nc,
                i + 1,
                d,
                mark - 2,
            )?;
        }
    }
    Ok(())
}
