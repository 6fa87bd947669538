// A group's master, its own or its remote group's, or the one that stands for it.
ghost use Rattle.std.specs.Prelude.{◌≡◌, ◌≤◌};
ghost use Rattle.plan.specs.Channel.{both, is_master_type, fits};
ghost use Rattle.plan.specs.Columns.{first_master, remote_link, time_of};
ghost use Rattle.planning.specs.Items.{group_of, groups_in, channels_in};
ghost use Rattle.planning.specs.Times.{master_from, master_in, time_words, StandsIn, remote_in};

use crate::groups::{Group, Notes, find_group, stand_of};
use crate::words::word;
use blocks::block::{link_at, links_at};
use channels::{fits_in, group_flags, is_master_type, is_storage};

// Whose master a group has: none; the remote group's counts differ; or the channel, with its group, DG and records.
#[derive(Drop)]
pub enum Time {
    Untimed,
    Differs,
    At {
        channel: u64,
        group: u64,
        dg: u64,
        records: u64,
    },
}

// The CN at c is of type 2 or 3 and fits the group at g.
pub fn is_master(image: &[u8], g: u64, c: u64) -> bool
    ensures { result ≡ both (is_master_type image.now c) (fits image.now g c) }
{
    is_master_type(image, c) && fits_in(image, g, c)
}

// The first of them, among the CN from item i on.
pub(crate) fn first_master(image: &[u8], source: &[u64], n: u64, i: u64, g: u64) -> Option<u64>
    requires { n ≤ 1536 }
    ensures { master_from result ≡ first_master image.now g (channels_in source.now n i) }
{
    for k in i..n {
        if word(source, 1536 + k) != 0 {
            return None;
        }
        let c = word(source, k);
        if is_master(image, g, c) {
            return Some(c);
        }
    }
    None
}

// None in a VLSD storage group.
pub(crate) fn master_of(image: &[u8], source: &[u64], n: u64, i: u64, g: u64) -> Option<u64>
    requires { n ≤ 1536 }
    ensures { master_from result ≡ master_in image.now source.now n i g }
{
    if is_storage(image, g) {
        return None;
    }
    first_master(image, source, n, i, g)
}

// The group's remote link, 0 for none.
pub fn remote_link(image: &[u8], g: u64) -> u64
    ensures { result ≡ remote_link image.now g }
{
    if group_flags(image, g) / 8 % 2 == 1 && 6 < links_at(image, g) {
        return link_at(image, g, 6);
    }
    0
}

// The group's master at c, or the one that stands for it.
pub(crate) fn standing(image: &[u8], notes: Notes, c: u64, group: Group) -> Time
    ensures { StandsIn image.now notes.entry.source.now notes.entry.stands.now notes.entry.items c group.at group.dg group.records result }
{
    let by = stand_of(notes, group.at);
    if by == 0 {
        return Time::At {
            channel: c,
            group: group.at,
            dg: group.dg,
            records: group.records,
        };
    }
    let Some(found) = find_group(notes, by) else {
        return Time::Untimed;
    };
    match master_of(image, notes.source, notes.items, found.item, by) {
        None => Time::Untimed,
        Some(channel) => Time::At {
            channel,
            group: by,
            dg: found.dg,
            records: found.records,
        },
    }
}

// The master of the remote group of the group at g, which has so many records.
pub(crate) fn remote_time(image: &[u8], notes: Notes, g: u64, records: u64) -> Time
    ensures { result ≡ time_words (remote_in image.now notes.entry.source.now notes.entry.stands.now notes.entry.items g records) }
{
    let link = remote_link(image, g);
    let Some(found) = find_group(notes, link) else {
        return Time::Untimed;
    };
    let Some(c) = master_of(image, notes.source, notes.items, found.item, link) else {
        return Time::Untimed;
    };
    if found.records != records {
        return Time::Differs;
    }
    let remote = Group {
        item: found.item,
        at: link,
        dg: found.dg,
        records: found.records,
    };
    standing(image, notes, c, remote)
}

// The time of a group.
pub(crate) fn time_of(image: &[u8], notes: Notes, group: Group) -> Time
    ensures { result ≡ time_words (time_of image.now (groups_in notes.entry.source.now notes.entry.items) notes.entry.stands.now
        (group_of group.dg group.at (channels_in notes.entry.source.now notes.entry.items group.item) group.records)) }
{
    match master_of(image, notes.source, notes.items, group.item, group.at) {
        Some(c) => standing(image, notes, c, group),
        None => remote_time(image, notes, group.at, group.records),
    }
}
