// The channels of a group: a column or an omission for each but the group's own master.
ghost use Rattle.std.specs.Prelude.{◌≡◌, ◌≤◌};
ghost use Rattle.choices.specs.Chosen.{rules};
ghost use Rattle.planning.specs.Planning.{signal_if, ChannelPlan, ChannelsPlan};

use crate::groups::Group;
use crate::words::{put_column, put_omission, word};
use choices::Choices;
use deciding::{Decision, decide};
use fields::refusal::Refusal;

// The numbers of columns, omissions and fragments so far.
#[derive(Clone, Copy)]
pub struct Progress {
    pub columns: u64,
    pub omissions: u64,
    pub fragments: u64,
}

// The seventh word of a column: n fragments are kept before its own.
fn signal_word(signal: bool, n: u64) -> u64
    requires { n ≤ 1024 }
    ensures { result ≡ signal_if signal n }
{
    if signal {
        return n + 1;
    }
    0
}

// The CN at c of a group, whose master has that column, 0 for none.
pub(crate) fn plan_channel(
    image: &[u8],
    choices: Choices,
    table: &[u8],
    fragments: &mut [u64],
    columns: &mut [u64],
    group: Group,
    master: u64,
    c: u64,
    so_far: Progress,
) -> Result<Progress, Refusal>
    requires { (so_far.columns ≤ 4194304) × (so_far.omissions ≤ 4194304) × (so_far.fragments ≤ 1024) }
    ensures { ChannelPlan (rules choices table.now) image.now group.at group.dg group.records master c
        so_far.columns so_far.omissions so_far.fragments columns.old fragments.old result columns.new fragments.new }
{
    let decision = decide(
        image,
        choices.photos,
        table,
        fragments,
        so_far.fragments,
        group.at,
        c,
    )?;
    match decision {
        Decision::Omitted { reason } => {
            put_omission(columns, so_far.omissions, c, u64::from(reason));
            Ok(Progress {
                columns: so_far.columns,
                omissions: so_far.omissions + 1,
                fragments: so_far.fragments,
            })
        }
        Decision::Kept { signal, count } => {
            let word = signal_word(signal, so_far.fragments);
            let own = count - so_far.fragments;
            put_column(
                columns,
                so_far.columns,
                [c, group.at, group.dg, group.records, 0, master, word, own],
            );
            Ok(Progress {
                columns: so_far.columns + 1,
                omissions: so_far.omissions,
                fragments: count,
            })
        }
    }
}

// The CN of a group but own, with the same for each.
pub(crate) fn plan_channels(
    image: &[u8],
    choices: Choices,
    table: &[u8],
    source: &[u64],
    fragments: &mut [u64],
    columns: &mut [u64],
    n: u64,
    group: Group,
    own: u64,
    master: u64,
    so_far: Progress,
) -> Result<Progress, Refusal>
    requires { (n ≤ 1536) × (group.item ≤ n) × (so_far.columns ≤ 4190208) × (so_far.omissions ≤ 4190208) × (so_far.fragments ≤ 1024) }
    ensures { ChannelsPlan (rules choices table.now) image.now source.now n group.item group.at group.dg group.records own master
        so_far.columns so_far.omissions so_far.fragments columns.old fragments.old result columns.new fragments.new }
{
    let mut planned = so_far;
    for k in group.item..n {
        if word(source, 1536 + k) != 0 {
            return Ok(planned);
        }
        let c = word(source, k);
        if c != own {
            planned = plan_channel(
                image, choices, table, fragments, columns, group, master, c, planned,
            )?;
        }
    }
    Ok(planned)
}
