// The whole file: one part after the other, zeros between blocks.
ghost use Rattle.std.specs.Prelude.{◌≡◌};
ghost use Rattle.base.specs.Blit.{blit};
ghost use Rattle.plan.specs.Layout.{Layout};
ghost use Rattle.thin.specs.Fill.{file_kept};
ghost use Rattle.thinning.specs.Whole.{Stands, Ready};

use crate::data::write_data;
use crate::decided::Decided;
use crate::front::{comment_of, first_column, first_history, write_front};
use crate::structure::write_structure;
use write_copies::attached::{next_place, write_attachments};
use write_copies::copies::write_copies;
use write_copies::gap::gap;

// All of it, from what was decided.
pub(crate) fn write_file(out: &mut [u8], file: &Decided)
    requires { Ready file.now.image.now file.now.columns.now file.now.memo.now file.now.numbers out.old }
    ensures { (l : Layout) → Stands file.now.image.now file.now.columns.now file.now.memo.now file.now.numbers out.old l
        → out.new ≡ blit 0 (file_kept file.now.image.now l) out.old }
{
    let image = file.image;
    let memo = file.memo;
    let n = file.numbers;
    let used = n.copies;
    let chain = n.chain;
    let column = first_column(memo, n.columns);
    let history = first_history(memo, used, chain);
    let attachment = next_place(memo, 0, n.attachments);
    let comment = comment_of(image, memo, used);
    let a = write_front(out, image, column, history, attachment, comment);
    let b = write_copies(out, a, image, memo, used, chain, 0, 0, n.metadata);
    let c = write_structure(out, b, file);
    let d = write_data(out, c, file);
    let e = write_attachments(
        out,
        d,
        image,
        memo,
        used,
        chain,
        0,
        n.metadata,
        n.attachments,
    );
    gap(out, e, n.file_size as usize);
}
