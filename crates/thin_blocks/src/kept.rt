// A kept column's DG and CG, with their data as it was.
ghost use Rattle.std.specs.Prelude.{◌≡◌};
ghost use Rattle.base.specs.Blit.{blit};
ghost use Rattle.thin_blocks.specs.Blocks.{dg_kept, cg_kept};

use blocks::block::DG;
use filling::{put_cg_front, put_cut_data};
use puts::{header, put_u64};

// The DG, with the data of the DG at a.
pub fn put_kept_dg(d: &mut [u8], image: &[u8], a: u64, next: u64, cg: u64, dl: u64, comment: u64)
    ensures { d.new ≡ blit 0 (dg_kept image.now a next cg dl comment) d.old }
{
    header(d, DG, 64, 4);
    put_u64(d, 24, next);
    put_u64(d, 32, cg);
    put_u64(d, 40, dl);
    put_u64(d, 48, comment);
    put_cut_data(d, 56, 8, image, a);
}

// The CG, with the data of the CG at g; master is the master's CG where it is remote.
pub fn put_kept_cg(
    d: &mut [u8],
    image: &[u8],
    g: u64,
    cn: u64,
    name: u64,
    source: u64,
    comment: u64,
    remote: bool,
    master: u64,
)
    ensures { d.new ≡ blit 0 (cg_kept image.now g cn name source comment remote master) d.old }
{
    put_cg_front(d, remote, cn, name, source, comment);
    if remote {
        put_u64(d, 72, master);
        put_cut_data(d, 80, 32, image, g);
        return;
    }
    put_cut_data(d, 72, 32, image, g);
}
