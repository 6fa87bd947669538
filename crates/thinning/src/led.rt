// What links are led by: the image, and where its copies were placed.
ghost use Rattle.std.specs.Prelude.{◌≤◌, length};
ghost use Rattle.copier.specs.Index.{Indexes};

// The copies are the first so many of the words, which the index finds; there are so many attachments, the first one's copies from copy number
// metadata on.
#[derive(Drop)]
pub(crate) struct Led<'a> {
    pub image: &'a [u8],
    pub memo: &'a [u64],
    pub index: &'a [u16; 4096],
    pub used: u64,
    pub metadata: u64,
    pub attached: u64,
    ghost indexed: { Indexes memo.now used index.now },
    ghost few: { attached ≤ 64 },
    ghost long: { 8192 ≤ length memo.now },
}
