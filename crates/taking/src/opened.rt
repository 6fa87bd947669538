// An opened file, with how many columns it has.
ghost use Rattle.std.specs.Prelude.{◌≡◌, ◌≤◌, ◌<◌};
ghost use Rattle.ranges.specs.Open.{column_at};

// Opening leaves DG, CG and CN of column k at words 3k, 3k + 1 and 3k + 2.
#[derive(Drop)]
pub(crate) struct File<'a> {
    pub image: &'a [u8],
    pub source: &'a [u64; 4096],
    pub count: u64,
    ghost few: { count ≤ 512 },
}

impl File<'_> {
    // The DG of column k.
    pub(crate) fn parent(&self, k: u64) -> u64
        requires { k < self.now.count }
        ensures { result ≡ (column_at self.now.image.now self.now.source.now k).dg }
    {
        self.source[3 * k as usize]
    }

    // Its CG.
    pub(crate) fn group(&self, k: u64) -> u64
        requires { k < self.now.count }
        ensures { result ≡ (column_at self.now.image.now self.now.source.now k).cg }
    {
        self.source[3 * k as usize + 1]
    }

    // Its CN.
    pub(crate) fn channel(&self, k: u64) -> u64
        requires { k < self.now.count }
        ensures { result ≡ (column_at self.now.image.now self.now.source.now k).cn }
    {
        self.source[3 * k as usize + 2]
    }
}
