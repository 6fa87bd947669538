// Why an image or a call is refused, and where.
ghost use Rattle.std.specs.Prelude.{◌≡◌};

// The rows of document 01's and 02's refusals, by their numbers; a value is the place, which is 0 where there is none.
#[derive(Clone, Copy, Debug, PartialEq, Eq)]
pub enum Refusal {
    // 1: a lent slice that is too short, or an argument of another form
    Arguments,
    // 2 and 3: no block size; an image that is too large
    BlockSize,
    ImageSize,
    // 4, the range's start: it runs past the image
    OutOfImage(u64),
    // 5, 6, 7: bytes 0..8; a version that is unreadable; one that is not read
    NotMdf,
    UnreadableVersion,
    OtherVersion,
    // 8 to 10, the block: its links run past it; it is too long; it is not the one wanted
    LinksPastBlock(u64),
    BlockTooLong(u64),
    NotAsWanted(u64),
    // 11 and 12, the block: it was met before; it has no place in a data chain
    MetAgain(u64),
    NotInChain(u64),
    // 13 and 14, the DG: the size of its ids; groups that cannot be told apart
    IdSize(u64),
    Groups(u64),
    // 15, the record's start: it ends early, lies on both sides of DT and DV or has an unknown id
    BrokenRecord(u64),
    // 16 and 17, the block: it cannot be copied; a history block without links
    NotCopied(u64),
    HistoryWithoutLinks(u64),
    // 18, the AT: its links or its length
    BrokenAttachment(u64),
    // 19, what is past a limit
    OverLimit(u64),
    // 20 and 21, the bytes and words needed: the output or the list is too short
    OutputTooShort(u64),
    ListTooShort(u64),
    // 22 and 23: no such column; fewer records than those asked for
    NoSuchColumn,
    NoSuchRecords,
    // 24: not a column file's form, or a buffer of another length
    OtherForm,
    // 25: too many entries, or one that leaves the destination
    OutsideDestination,
    // 26 and 27: no such unit; no such table of types
    Unit,
    Types,
    // 28, the CN: a photo that is no attachment, or too few links
    BrokenPhoto(u64),
    // 33 and 34: a column to take out that is named twice or is none, or that a kept one names
    NotTakenOut,
    StillNamed,
}

impl Refusal {
    ghost use Rattle.fields.specs.Answer.{number_of, place_of};

    pub fn number(self) -> u64
        ensures { result ≡ number_of self }
    {
        match self {
            Refusal::Arguments => 1,
            Refusal::BlockSize => 2,
            Refusal::ImageSize => 3,
            Refusal::OutOfImage(_) => 4,
            Refusal::NotMdf => 5,
            Refusal::UnreadableVersion => 6,
            Refusal::OtherVersion => 7,
            Refusal::LinksPastBlock(_) => 8,
            Refusal::BlockTooLong(_) => 9,
            Refusal::NotAsWanted(_) => 10,
            Refusal::MetAgain(_) => 11,
            Refusal::NotInChain(_) => 12,
            Refusal::IdSize(_) => 13,
            Refusal::Groups(_) => 14,
            Refusal::BrokenRecord(_) => 15,
            Refusal::NotCopied(_) => 16,
            Refusal::HistoryWithoutLinks(_) => 17,
            Refusal::BrokenAttachment(_) => 18,
            Refusal::OverLimit(_) => 19,
            Refusal::OutputTooShort(_) => 20,
            Refusal::ListTooShort(_) => 21,
            Refusal::NoSuchColumn => 22,
            Refusal::NoSuchRecords => 23,
            Refusal::OtherForm => 24,
            Refusal::OutsideDestination => 25,
            Refusal::Unit => 26,
            Refusal::Types => 27,
            Refusal::BrokenPhoto(_) => 28,
            Refusal::NotTakenOut => 33,
            Refusal::StillNamed => 34,
        }
    }

    pub fn place(self) -> u64
        ensures { result ≡ place_of self }
    {
        match self {
            Refusal::OutOfImage(at) => at,
            Refusal::LinksPastBlock(at) => at,
            Refusal::BlockTooLong(at) => at,
            Refusal::NotAsWanted(at) => at,
            Refusal::MetAgain(at) => at,
            Refusal::NotInChain(at) => at,
            Refusal::IdSize(at) => at,
            Refusal::Groups(at) => at,
            Refusal::BrokenRecord(at) => at,
            Refusal::NotCopied(at) => at,
            Refusal::HistoryWithoutLinks(at) => at,
            Refusal::BrokenAttachment(at) => at,
            Refusal::OverLimit(at) => at,
            Refusal::OutputTooShort(at) => at,
            Refusal::ListTooShort(at) => at,
            Refusal::BrokenPhoto(at) => at,
            _ => 0,
        }
    }
}
