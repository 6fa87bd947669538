// A conversion in steps: begun, then a store a step; positions are named and returned to.
ghost use Rattle.std.specs.Prelude.{◌≡◌, ◌+◌, ◌*◌, ◌-◌, ◌≤◌, length};
ghost use Rattle.stores.specs.Stores.{naming, recalling};
ghost use Rattle.positions.specs.Held.{state_of};
ghost use Rattle.writing.specs.Answer.{args};
ghost use Rattle.steps.specs.Conversion.{positions_of, call_of};
ghost use Rattle.steps.specs.Steps.{Holds, Steps, Bounded, lent, PositionAs};
ghost use Rattle.sitaungo.specs.InSteps.{begun_of, Began};

use crate::{ColumnOptions, Outcome};
use fields::refusal::Refusal;
use steps::begin::{Started, begin};
use steps::conversion::Conversion;
use steps::position::{Position, name, recall};
use steps::step::{left, step};

// The answer as of a conversion in one go; the state, all zero where it was refused.
#[repr(C)]
#[derive(Drop)]
pub struct Begun {
    pub outcome: Outcome,
    pub conversion: Conversion,
}

// What `begin` of the crate steps answers; a refusal's state has no step.
fn begun_of(answer: Result<Started, Refusal>) -> Begun
    ensures { result ≡ begun_of answer }
{
    match answer {
        Ok(started) => Begun {
            outcome: started.report.into(),
            conversion: started.conversion,
        },
        Err(refusal) => Begun {
            outcome: refusal.into(),
            conversion: Conversion::default(),
        },
    }
}

// All up to the first store, for a file of so many bytes and a list of so many words: `begin` of the crate steps.
#[unsafe(no_mangle)]
pub extern "C" fn sitaungo_begin(
    image: &[u8],
    size: u64,
    ident: &[u8],
    text: &[u8],
    time: u64,
    options: ColumnOptions,
    types: &[u8],
    out: u64,
    list_words: u64,
    source: &mut [u64],
    fragments: &mut [u64],
    columns: &mut [u64],
    copies: &mut [u64],
    stretches: &mut [u64],
    offsets: &mut [u64],
) -> Begun
    ensures { Began (args image.now size ident.now text.now time (record { unit = options.unit; table = types.now; share = options.share; photos = options.photos })) out list_words
        source.old fragments.old columns.old copies.old stretches.old offsets.old result
        source.new fragments.new columns.new copies.new stretches.new offsets.new }
{
    let answer = begin(
        image,
        size,
        ident,
        text,
        time,
        options.choices(),
        types,
        out,
        list_words,
        source,
        fragments,
        columns,
        copies,
        stretches,
        offsets,
    );
    begun_of(answer)
}

// One store over the file, and with the last the list: `step` of the crate steps.
#[unsafe(no_mangle)]
pub extern "C" fn sitaungo_step(
    conversion: Conversion,
    image: &[u8],
    ident: &[u8],
    text: &[u8],
    types: &[u8],
    source: &mut [u64],
    fragments: &mut [u64],
    columns: &mut [u64],
    copies: &mut [u64],
    stretches: &mut [u64],
    offsets: &mut [u64],
    file: &mut [u8],
    list: &mut [u64],
) -> Conversion
    ensures right { Holds (call_of conversion image.now ident.now text.now types.now) conversion
        source.old fragments.old columns.old copies.old stretches.old offsets.old
        → conversion.file_size ≤ length file.old → 2 * conversion.omissions + 1 ≤ length list.old
        → Steps (call_of conversion image.now ident.now text.now types.now) conversion file.old list.old result
        source.new fragments.new columns.new copies.new stretches.new offsets.new
        file.new list.new }
    ensures bounded { Bounded conversion result file.old file.new list.old list.new
        (lent source.old fragments.old columns.old copies.old stretches.old offsets.old)
        (lent source.new fragments.new columns.new copies.new stretches.new offsets.new) }
{
    step(
        conversion, image, ident, text, types, source, fragments, columns, copies, stretches,
        offsets, file, list,
    )
}

// The present position gets a name: `name` of the crate steps.
#[unsafe(no_mangle)]
pub extern "C" fn sitaungo_name(conversion: Conversion, called: u64) -> Position
    ensures { PositionAs (naming conversion.steps called (state_of (positions_of conversion))) conversion result }
{
    name(conversion, called)
}

// Back to the position of that name: `recall` of the crate steps.
#[unsafe(no_mangle)]
pub extern "C" fn sitaungo_recall(conversion: Conversion, called: u64) -> Position
    ensures { PositionAs (recalling conversion.steps called (state_of (positions_of conversion))) conversion result }
{
    recall(conversion, called)
}

// How many stores are left.
#[unsafe(no_mangle)]
pub extern "C" fn sitaungo_left(conversion: Conversion) -> u64
    ensures { result ≡ conversion.steps - conversion.next }
{
    left(conversion)
}
