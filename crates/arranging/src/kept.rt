// The columns that a file keeps, and what they are laid out for.
ghost use Rattle.std.specs.Prelude.{◌≤◌, length};
ghost use Rattle.payload_laws.specs.UnitLaws.{IsUnit};

// The words of so many columns, eight a column; data blocks and SD begin on a multiple of the unit.
#[derive(Drop)]
pub(crate) struct Kept<'a> {
    pub image: &'a [u8],
    pub columns: &'a [u64],
    pub count: u64,
    pub unit: u64,
    ghost near: { length image.now ≤ 140737488355328 },
    ghost few: { count ≤ 512 },
    ghost on_unit: { IsUnit unit },
}
