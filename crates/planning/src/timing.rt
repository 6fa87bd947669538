// The time column of a group, planned where first needed.
ghost use Rattle.std.specs.Prelude.{◌≡◌, ◌≤◌, length};
ghost use Rattle.fields.specs.Answer.{verdict_of};
ghost use Rattle.plan.specs.Columns.{own_master};
ghost use Rattle.planning.specs.Times.{master_in};
ghost use Rattle.planning.specs.Timing.{time_tested, TimePlan, SettlePlan};

use crate::groups::{Group, Notes};
use crate::masters::{Time, master_of, time_of};
use crate::words::{put_column, put_omission, time_column, word};
use deciding::reason::Reason;
use fields::refusal::Refusal;
use photos::photos_in;

// The master's column and 1, 0 for none; the numbers of columns and omissions so far.
#[derive(Drop)]
pub struct Settled {
    pub master: u64,
    pub columns: u64,
    pub omissions: u64,
}

// The group's own master, 0 for none.
pub(crate) fn own_of(image: &[u8], source: &[u64], n: u64, i: u64, g: u64) -> u64
    requires { n ≤ 1536 }
    ensures { result ≡ own_master (master_in image.now source.now n i g) }
{
    master_of(image, source, n, i, g).unwrap_or(0)
}

// The time column of the group at g, with its master at c, of the DG at d, with so many records.
pub(crate) fn add_time(
    columns: &mut [u64],
    nc: u64,
    no: u64,
    c: u64,
    g: u64,
    d: u64,
    records: u64,
) -> Settled
    requires { (nc ≤ 4194304) × (no ≤ 4194304) × (4096 ≤ length columns.old) }
    ensures { TimePlan c g d records nc no columns.old result columns.new }
{
    let k = time_column(columns, nc, g);
    if k != 0 {
        return Settled {
            master: k,
            columns: nc,
            omissions: no,
        };
    }
    put_column(columns, nc, [c, g, d, records, 1, 0, 0, 0]);
    Settled {
        master: nc + 1,
        columns: nc + 1,
        omissions: no,
    }
}

// 28 of the time column that was added to nc columns, where there are n now.
pub(crate) fn time_in(
    image: &[u8],
    photos: bool,
    columns: &[u64],
    nc: u64,
    n: u64,
) -> Result<(), Refusal>
    requires { nc ≤ 4194304 }
    ensures { verdict_of result ≡ time_tested photos image.now columns.now nc n }
{
    if n == nc {
        return Ok(());
    }
    let c = word(columns, 8 * nc);
    photos_in(photos, image, c)
}

// What a group has for its time.
pub(crate) fn settle(
    image: &[u8],
    notes: Notes,
    columns: &mut [u64],
    group: Group,
    nc: u64,
    no: u64,
) -> Settled
    requires { (nc ≤ 4194304) × (no ≤ 4194303) × (4096 ≤ length columns.old) }
    ensures { SettlePlan image.now notes.entry.source.now notes.entry.stands.now notes.entry.items group.item group.at group.dg group.records nc no
        columns.old result columns.new }
{
    match time_of(image, notes, group) {
        Time::Untimed => Settled {
            master: 0,
            columns: nc,
            omissions: no,
        },
        Time::Differs => {
            put_omission(columns, no, group.at, u64::from(Reason::OtherCount));
            Settled {
                master: 0,
                columns: nc,
                omissions: no + 1,
            }
        }
        Time::At {
            channel,
            group: at,
            dg,
            records,
        } => add_time(columns, nc, no, channel, at, dg, records),
    }
}
