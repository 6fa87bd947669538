// Why a channel, or for the first a group's time, is omitted.
ghost use Rattle.std.specs.Prelude.{◌≡◌};
ghost use Rattle.deciding.specs.Reasons.{reason_number};

// The reasons of document 01 and 02, by their numbers.
#[derive(Clone, Copy, Debug, PartialEq, Eq)]
pub enum Reason {
    // 1, of a group: its time is in another group, which has another number of records
    OtherCount,
    // 2: it does not fit the record
    Unfit,
    // 3: a further master
    FurtherMaster,
    // 4: type 4
    Synchronization,
    // 5 and 6: it is composed of others
    Array,
    Structure,
    // 7: its signal data is a group's
    StorageGroup,
    // 8: the table of types omits it
    ByTable,
}

impl From<Reason> for u64 {
    ghost from_gives = { λ r n. n ≡ reason_number r };

    fn from(reason: Reason) -> u64 {
        match reason {
            Reason::OtherCount => 1,
            Reason::Unfit => 2,
            Reason::FurtherMaster => 3,
            Reason::Synchronization => 4,
            Reason::Array => 5,
            Reason::Structure => 6,
            Reason::StorageGroup => 7,
            Reason::ByTable => 8,
        }
    }
}
