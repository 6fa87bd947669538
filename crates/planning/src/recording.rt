// A recording is read and planned: identification, the walk, the counts, the attachments, which masters stand for others, the plan, the data stage.
ghost use Rattle.std.specs.Prelude.{◌≡◌, ◌≤◌, length, replicate};
ghost use Rattle.choices.specs.Chosen.{rules};
ghost use Rattle.planning.specs.Answer.{StageOver, StandsRead, StandAlike, PlanStood, PlanShared, PlanRead, given, plan_over, plan_left, plan_into};

use crate::clocks::share_times;
use crate::data::all_data_in;
use crate::groups::shared_groups;
use crate::planned::plan_groups;
use crate::stage::blocks_in;
use choices::Choices;
use fields::refusal::Refusal;
use photos::photos_first;
use reading::recording::{clear, read};

// The number of blocks met, of the walk's fragments, of columns, of omissions, and of groups that another stands for.
#[derive(Clone, Copy)]
pub struct Planned {
    pub items: u64,
    pub fragments: u64,
    pub columns: u64,
    pub omissions: u64,
    pub shared: u64,
}

// The data stage of nc columns, then their numbers of blocks.
fn stage_in(
    image: &[u8],
    size: u64,
    source: &[u64],
    fragments: &[u64],
    columns: &[u64],
    n: u64,
    nf: u64,
    nc: u64,
) -> Result<(), Refusal>
    requires { (n ≤ 1536) × (nf ≤ 1024) × (nc ≤ 4194304) × (3072 ≤ length fragments.now) }
    ensures { StageOver image.now size source.now fragments.now columns.now n nf nc result }
{
    all_data_in(image, source, fragments, columns, n, nf, nc)?;
    blocks_in(image, columns, nc, size)
}

// Which masters stand for others, of what was read into the words: none unless times are shared.
fn shared_in(
    image: &[u8],
    share: bool,
    source: &[u64],
    fragments: &[u64],
    n: u64,
    nf: u64,
    stands: &mut [u64; 512],
) -> Result<(), Refusal>
    requires { (n ≤ 1536) × (nf ≤ 1024) × (3072 ≤ length fragments.now) × (stands.old ≡ replicate 512 0) }
    ensures { StandsRead share image.now source.now fragments.now n nf result stands.new }
{
    if share {
        return share_times(image, source, fragments, n, nf, stands);
    }
    Ok(())
}

// The words of those that stand for others; none where no group does, so that none is sought.
fn some_stands(stands: &[u64]) -> &[u64]
    ensures { StandAlike stands.now result.now }
{
    if shared_groups(stands) == 0 {
        return &[];
    }
    stands
}

// The plan of what was read into the words, by those that stand for others, and its data stage.
fn plan_stood(
    image: &[u8],
    size: u64,
    choices: Choices,
    table: &[u8],
    source: &[u64],
    stands: &[u64; 512],
    fragments: &mut [u64],
    columns: &mut [u64],
    n: u64,
    nf: u64,
) -> Result<Planned, Refusal>
    requires { (n ≤ 1536) × (nf ≤ 1024) × (3072 ≤ length fragments.old) × (6144 ≤ length columns.old) }
    ensures { PlanStood (rules choices table.now) image.now size source.now stands.now fragments.old
        columns.old n nf result fragments.new columns.new }
{
    let some = some_stands(stands);
    let planned = plan_groups(
        image, choices, table, source, some, fragments, columns, n, nf,
    )?;
    stage_in(
        image,
        size,
        source,
        fragments,
        columns,
        n,
        nf,
        planned.columns,
    )?;
    Ok(Planned {
        items: n,
        fragments: nf,
        columns: planned.columns,
        omissions: planned.omissions,
        shared: shared_groups(stands),
    })
}

// The same, with those that stand for others found first.
fn plan_shared(
    image: &[u8],
    size: u64,
    choices: Choices,
    table: &[u8],
    source: &[u64],
    fragments: &mut [u64],
    columns: &mut [u64],
    n: u64,
    nf: u64,
) -> Result<Planned, Refusal>
    requires { (n ≤ 1536) × (nf ≤ 1024) × (3072 ≤ length fragments.old) × (6144 ≤ length columns.old) }
    ensures { PlanShared (rules choices table.now) image.now size source.now fragments.old columns.old n nf
        result fragments.new columns.new }
{
    let mut stands = [0u64; 512];
    shared_in(image, choices.share, source, fragments, n, nf, &mut stands)?;
    plan_stood(
        image, size, choices, table, source, &stands, fragments, columns, n, nf,
    )
}

// The plan of what was read into the words, and its data stage; before it the attachments, where references to them are kept.
fn plan_read(
    image: &[u8],
    size: u64,
    choices: Choices,
    table: &[u8],
    source: &[u64],
    fragments: &mut [u64],
    columns: &mut [u64],
    n: u64,
    nf: u64,
) -> Result<Planned, Refusal>
    requires { (n ≤ 1536) × (nf ≤ 1024) × (3072 ≤ length fragments.old) × (6144 ≤ length columns.old) }
    ensures { PlanRead (rules choices table.now) image.now size source.now fragments.old columns.old n nf
        result fragments.new columns.new }
{
    photos_first(choices.photos, image)?;
    plan_shared(
        image, size, choices, table, source, fragments, columns, n, nf,
    )
}

// Reading, then planning.
fn plan_all(
    image: &[u8],
    size: u64,
    choices: Choices,
    table: &[u8],
    source: &mut [u64],
    fragments: &mut [u64],
    columns: &mut [u64],
) -> Result<Planned, Refusal>
    requires { (4096 ≤ length source.old) × (3072 ≤ length fragments.old) × (6144 ≤ length columns.old) }
    ensures { length image.now ≤ 4294967296 → given result source.new fragments.new columns.new
        ≡ plan_over (rules choices table.now) image.now size source.old fragments.old columns.old }
{
    let met = read(image, source, fragments)?;
    plan_read(
        image,
        size,
        choices,
        table,
        source,
        fragments,
        columns,
        met.items,
        met.fragments,
    )
}

// A recording of at most 4 GiB is planned into lent words: 4,096 for its blocks, groups and counts, 3,072 for its fragments, 6,144 for columns and omissions.
pub fn plan(
    image: &[u8],
    size: u64,
    choices: Choices,
    table: &[u8],
    source: &mut [u64],
    fragments: &mut [u64],
    columns: &mut [u64],
) -> Result<Planned, Refusal>
    ensures { length image.now ≤ 4294967296 → plan_left result source.new fragments.new columns.new
        ≡ plan_into (rules choices table.now) image.now size source.old fragments.old columns.old }
{
    if source.len() < 4096 || fragments.len() < 3072 || columns.len() < 6144 {
        return Err(Refusal::Arguments);
    }
    let answer = plan_all(image, size, choices, table, source, fragments, columns);
    if answer.is_err() {
        clear(source);
        clear(fragments);
        clear(columns);
    }
    answer
}
