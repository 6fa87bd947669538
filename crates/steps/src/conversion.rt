// What a conversion in steps holds between two calls.
ghost use Rattle.std.specs.Prelude.{◌≡◌};
ghost use Rattle.steps.specs.Conversion.{held_of, choices_of, positions_of, at_positions};

use choices::Choices;
use placing::layout::Numbers;
use positions::Positions;
use window_file::Held;

// The call's numbers; what was decided, in numbers; how many steps there are; the number of the next store, and the names that are held, so many,
// with the position of each.
#[repr(C)]
#[derive(Clone, Copy, Default)]
pub struct Conversion {
    pub block_size: u64,
    pub time: u64,
    pub unit: u64,
    pub share: bool,
    pub photos: bool,
    pub items: u64,
    pub pieces: u64,
    pub columns: u64,
    pub omissions: u64,
    pub history: u64,
    pub chain: u64,
    pub md: u64,
    pub fh: u64,
    pub metadata: u64,
    pub copies: u64,
    pub attachments: u64,
    pub metadata_end: u64,
    pub file_size: u64,
    pub steps: u64,
    pub next: u64,
    pub count: u64,
    pub name_a: u64,
    pub name_b: u64,
    pub name_c: u64,
    pub name_d: u64,
    pub place_a: u64,
    pub place_b: u64,
    pub place_c: u64,
    pub place_d: u64,
}

// What was decided.
pub(crate) fn held_of(k: Conversion) -> Held
    ensures { result ≡ held_of k }
{
    let numbers = Numbers {
        history: k.history,
        chain: k.chain,
        md: k.md,
        fh: k.fh,
        metadata: k.metadata,
        copies: k.copies,
        attachments: k.attachments,
        metadata_end: k.metadata_end,
        file_size: k.file_size,
    };
    Held {
        items: k.items,
        pieces: k.pieces,
        columns: k.columns,
        omissions: k.omissions,
        numbers,
    }
}

// What the call chose.
pub(crate) fn choices_of(k: Conversion) -> Choices
    ensures { result ≡ choices_of k }
{
    Choices {
        unit: k.unit,
        share: k.share,
        photos: k.photos,
    }
}

// Positions and names.
pub(crate) fn positions_of(k: Conversion) -> Positions
    ensures { result ≡ positions_of k }
{
    Positions {
        next: k.next,
        count: k.count,
        names: [k.name_a, k.name_b, k.name_c, k.name_d],
        places: [k.place_a, k.place_b, k.place_c, k.place_d],
    }
}

// The same conversion with these.
pub(crate) fn at_positions(k: Conversion, p: Positions) -> Conversion
    ensures { result ≡ at_positions k p }
{
    let [name_a, name_b, name_c, name_d] = p.names;
    let [place_a, place_b, place_c, place_d] = p.places;
    Conversion {
        next: p.next,
        count: p.count,
        name_a,
        name_b,
        name_c,
        name_d,
        place_a,
        place_b,
        place_c,
        place_d,
        ..k
    }
}
