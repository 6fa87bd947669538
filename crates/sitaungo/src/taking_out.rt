// Columns taken out of a column file, for programs that link it.
ghost use Rattle.std.specs.Prelude.{◌≡◌, length};
ghost use Rattle.thin.specs.TakenOut.{take_out};
ghost use Rattle.arranging.specs.Answered.{four};
ghost use Rattle.thinning.specs.Answer.{Promised};
ghost use Rattle.sitaungo.specs.TakingOut.{left_by, exported_taken};

use fields::refusal::Refusal;
use thinning::take::take_out;

// Whether the call was accepted; a refusal's number and place where it was not, else 0; the bytes of the new file where it was, else 0.
#[repr(C)]
#[derive(Default, Drop)]
pub struct TakenColumns {
    pub accepted: bool,
    pub number: u64,
    pub place: u64,
    pub bytes: u64,
}

impl From<Result<u64, Refusal>> for TakenColumns {
    ghost use Rattle.thinning.specs.Answer.{taken_as};
    ghost use Rattle.sitaungo.specs.TakingOut.{taken_numbers};

    ghost from_gives = { λ answer taken. taken ≡ taken_numbers (taken_as answer) };

    fn from(answer: Result<u64, Refusal>) -> TakenColumns {
        match answer {
            Ok(bytes) => TakenColumns {
                accepted: true,
                bytes,
                ..TakenColumns::default()
            },
            Err(refusal) => TakenColumns {
                number: refusal.number(),
                place: refusal.place(),
                ..TakenColumns::default()
            },
        }
    }
}

// A file with the other columns in order, at the front of the output: `take_out` of the crate thinning.
#[unsafe(no_mangle)]
pub extern "C" fn sitaungo_take_out(
    image: &[u8],
    unit: u64,
    numbers: &[u64],
    source: &mut [u64],
    fragments: &mut [u64],
    columns: &mut [u64],
    copies: &mut [u64],
    out: &mut [u8],
) -> TakenColumns
    ensures done { left_by result out.new (four source.new fragments.new columns.new copies.new)
        ≡ exported_taken (take_out unit image.now numbers.now out.old
        (four source.old fragments.old columns.old copies.old)) }
    ensures promised { Promised unit image.now numbers.now (length out.old)
        (four source.old fragments.old columns.old copies.old) out.new }
{
    TakenColumns::from(take_out(
        image, unit, numbers, source, fragments, columns, copies, out,
    ))
}
