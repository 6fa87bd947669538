// Columns taken out of a column file: the whole call.
ghost use Rattle.std.specs.Prelude.{◌≡◌, length};
ghost use Rattle.thin.specs.TakenOut.{take_out};
ghost use Rattle.arranging.specs.Answered.{four};
ghost use Rattle.thinning.specs.Answer.{Bytes, left, Promised};

use crate::decided::Decided;
use crate::whole::write_file;
use arranging::decide::arrange;
use fields::refusal::Refusal;
use reading::recording::clear;

// Every element of the image is a byte.
fn are_bytes(image: &[u8])
    ensures { Bytes image.now }
{
    if 0 < image.len() {
        let _first = image[0];
    }
}

// The file with the other columns in order, at the front of the output; answers how many bytes it has.
pub fn take_out(
    image: &[u8],
    unit: u64,
    numbers: &[u64],
    source: &mut [u64],
    fragments: &mut [u64],
    columns: &mut [u64],
    memo: &mut [u64],
    out: &mut [u8],
) -> Result<u64, Refusal>
    ensures done { left result out.new (four source.new fragments.new columns.new memo.new)
        ≡ take_out unit image.now numbers.now out.old
        (four source.old fragments.old columns.old memo.old) }
    ensures promised { Promised unit image.now numbers.now (length out.old)
        (four source.old fragments.old columns.old memo.old) out.new }
{
    are_bytes(image);
    let arranged = arrange(
        image,
        unit,
        numbers,
        out.len() as u64,
        source,
        fragments,
        columns,
        memo,
    )?;
    let file = Decided {
        image,
        columns,
        memo,
        numbers: arranged,
    };
    write_file(out, &file);
    clear(source);
    clear(fragments);
    clear(columns);
    clear(memo);
    Ok(arranged.file_size)
}
