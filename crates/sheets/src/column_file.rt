// The sheet of a file.
ghost use Rattle.texts.specs.Laid.{Laid};
ghost use Rattle.sheet.specs.Sheet.{sheet};

use crate::page::put_pages;
use ranges::open::open_file;
use texts::put_refusal;

// The pages of a column file, or its refusal; answers how many bytes they have, 42,201 at most. What has no room is lost.
pub fn sheet(lines: &mut [u8], image: &[u8]) -> usize
    ensures { Laid 0 (sheet image.now) 42201 lines.old lines.new result }
{
    let mut source = [0u64; 4096];
    match open_file(image, &mut source) {
        Ok(count) => put_pages(lines, image, &source, count),
        Err(refusal) => put_refusal(lines, refusal.number(), refusal.place()),
    }
}
