// The groups in the order of the walk.
ghost use Rattle.std.specs.Prelude.{◌≤◌, length};
ghost use Rattle.choices.specs.Chosen.{rules};
ghost use Rattle.planning.specs.Planned.{GroupPlan, GroupsPlan};

use crate::column::{Progress, plan_channels};
use crate::groups::{Group, Notes, note_items};
use crate::timing::{own_of, settle, time_in};
use crate::words::word;
use channels::is_storage;
use choices::Choices;
use fields::refusal::Refusal;

// A group, where so many columns, omissions and fragments are kept.
pub(crate) fn plan_group(
    image: &[u8],
    choices: Choices,
    table: &[u8],
    notes: Notes,
    fragments: &mut [u64],
    columns: &mut [u64],
    group: Group,
    so_far: Progress,
) -> Result<Progress, Refusal>
    requires { (group.item ≤ notes.items) × (so_far.columns ≤ 4190000) × (so_far.omissions ≤ 4190000) × (so_far.fragments ≤ 1024)
        × (4096 ≤ length columns.old) }
    ensures { GroupPlan (rules choices table.now) image.now notes.entry.source.now notes.entry.stands.now notes.entry.items
        group.item group.at group.dg group.records so_far.columns so_far.omissions so_far.fragments
        columns.old fragments.old result columns.new fragments.new }
{
    if is_storage(image, group.at) {
        return Ok(so_far);
    }
    let own = own_of(image, notes.source, notes.items, group.item, group.at);
    let settled = settle(
        image,
        notes,
        columns,
        group,
        so_far.columns,
        so_far.omissions,
    );
    time_in(
        image,
        choices.photos,
        columns,
        so_far.columns,
        settled.columns,
    )?;
    let next = Progress {
        columns: settled.columns,
        omissions: settled.omissions,
        fragments: so_far.fragments,
    };
    plan_channels(
        image,
        choices,
        table,
        notes.source,
        fragments,
        columns,
        notes.items,
        group,
        own,
        settled.master,
        next,
    )
}

// All groups, by what is noted of the items; nf fragments are kept.
fn plan_noted(
    image: &[u8],
    choices: Choices,
    table: &[u8],
    notes: Notes,
    fragments: &mut [u64],
    columns: &mut [u64],
    nf: u64,
) -> Result<Progress, Refusal>
    requires { (nf ≤ 1024) × (4096 ≤ length columns.old) }
    ensures { GroupsPlan (rules choices table.now) image.now notes.entry.source.now notes.entry.stands.now notes.entry.items nf
        columns.old fragments.old result columns.new fragments.new }
{
    let mut g: u64 = 0;
    let mut d: u64 = 0;
    let mut so_far = Progress {
        columns: 0,
        omissions: 0,
        fragments: nf,
    };
    for i in 0..notes.items {
        let mark = word(notes.source, 1536 + i);
        let at = word(notes.source, i);
        if mark == 1 {
            let records = word(notes.source, 3584 + g);
            g += 1;
            let group = Group {
                item: i + 1,
                at,
                dg: d,
                records,
            };
            so_far = plan_group(
                image, choices, table, notes, fragments, columns, group, so_far,
            )?;
        } else if mark != 0 {
            d = at;
        }
    }
    Ok(so_far)
}

// All groups of n items.
pub(crate) fn plan_groups(
    image: &[u8],
    choices: Choices,
    table: &[u8],
    source: &[u64],
    stands: &[u64],
    fragments: &mut [u64],
    columns: &mut [u64],
    n: u64,
    nf: u64,
) -> Result<Progress, Refusal>
    requires { (n ≤ 1536) × (nf ≤ 1024) × (4096 ≤ length columns.old) }
    ensures { GroupsPlan (rules choices table.now) image.now source.now stands.now n nf
        columns.old fragments.old result columns.new fragments.new }
{
    let mut before = [0u64; 3072];
    let mut index = [0u16; 4096];
    note_items(source, &mut before, &mut index, n);
    let notes = Notes {
        source,
        before: &before,
        index: &index,
        items: n,
        stands,
    };
    plan_noted(image, choices, table, notes, fragments, columns, nf)
}
