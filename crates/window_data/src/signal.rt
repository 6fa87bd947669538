// Signal data over a window: the joined data of a channel's SD chain, as one SD block.
ghost use Rattle.window_data.specs.Signal.{LaysSignal};

use data_blocks::total::total_of;
use window_cells::data::lay_joined;
use windows::lay_header;

// The SD block that stands at index at of the file.
pub fn lay_signal(w: &mut [u8], a: u64, at: u64, image: &[u8], fragments: &[u64])
    ensures { LaysSignal image.now fragments.now a at w.old w.new }
{
    let Some(bytes) = total_of(image, fragments) else {
        return;
    };
    let Some(from) = at.checked_add(24) else {
        return;
    };
    let Some(size) = bytes.checked_add(24) else {
        return;
    };
    lay_header(w, a, at, 0x4453_2323, size, 0);
    lay_joined(w, a, from, image, fragments, 0, bytes);
}
