// The data of a compared group that is alone in its DG.
ghost use Rattle.std.specs.Prelude.{◌≡◌};
ghost use Rattle.fields.specs.Answer.{verdict_of};
ghost use Rattle.work_words.specs.Words.{fragments_of};
ghost use Rattle.result.specs.Sharing.{stream_in};

use channels::{inval_bytes_of, samples_of};
use fields::refusal::Refusal;
use records::fragment::any_dv;
use records::group::id_size;
use records::sorted::sorted_in;

// Checked as for a nonempty column, where it is read.
pub fn stream_in(image: &[u8], d: u64, g: u64, fragments: &[u64]) -> Result<(), Refusal>
    ensures { verdict_of result ≡ stream_in image.now d g (fragments_of fragments.now) }
{
    if samples_of(image, g) != 0 || inval_bytes_of(image, g) != 0 {
        return sorted_in(image, d, g, fragments);
    }
    if any_dv(fragments) || id_size(image, d) == 0 {
        return Ok(());
    }
    sorted_in(image, d, g, fragments)
}
