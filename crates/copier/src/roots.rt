// What a column refers to: links of its CG, its CN and its DG.
ghost use Rattle.std.specs.Prelude.{◌≡◌, ◌≤◌, length, get_or};
ghost use Rattle.plan.specs.Copies.{copy_roots};
ghost use Rattle.copier.specs.Standing.{standing, Room};
ghost use Rattle.copier.specs.Got.{Copied, AfterGot, IndexedGot, MayCopy};
ghost use Rattle.copier.specs.Index.{Indexed};
ghost use Rattle.copier.specs.Roots.{roots};

use crate::copies::copy_root;
use crate::memo::Copying;
use blocks::block::link_at;
use fields::refusal::Refusal;

// Link number i of the nine: CG links 3, 4, 6, CN links 3, 4, 5, 7, 8, the DG comment.
pub fn root(image: &[u8], dg: u64, cg: u64, cn: u64, i: u64) -> u64
    ensures { result ≡ get_or (roots image.now dg cg cn) i 0 }
{
    match i {
        0 => link_at(image, cg, 2),
        1 => link_at(image, cg, 3),
        2 => link_at(image, cg, 5),
        3 => link_at(image, cn, 2),
        4 => link_at(image, cn, 3),
        5 => link_at(image, cn, 4),
        6 => link_at(image, cn, 6),
        7 => link_at(image, cn, 7),
        8 => link_at(image, dg, 3),
        _ => 0,
    }
}

// The nine blocks and all that they link to, in order.
pub(crate) fn column_roots(
    image: &[u8],
    memo: &mut [u64],
    index: &mut [u16; 4096],
    dg: u64,
    cg: u64,
    cn: u64,
    most: u64,
    state: Copying,
) -> Result<Copying, Refusal>
    requires { MayCopy memo.old most state index.old }
    ensures copied { Copied memo.old memo.new result
        (copy_roots most image.now (roots image.now dg cg cn)
        (standing memo.old state)) }
    ensures after { AfterGot result state }
    ensures indexed { IndexedGot result memo.new index.new }
{
    let mut st = state;
    for i in 0..9 {
        let link = root(image, dg, cg, cn, i);
        st = copy_root(image, memo, index, link, most, st)?;
    }
    Ok(st)
}
