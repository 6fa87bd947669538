// What is decided before anything is written: lent slices, then reading, planning and layout.
ghost use Rattle.std.specs.Prelude.{◌≡◌, [], ◌≤◌, length};
ghost use Rattle.fields.specs.Answer.{verdict_of};
ghost use Rattle.plan.specs.Rules.{built_in};
ghost use Rattle.result.specs.Result.{lent_in, zeros};
ghost use Rattle.choices.specs.Chosen.{rules};
ghost use Rattle.placing.specs.Decision.{untimed, four, DecidesRest, Decides};

use crate::columns::Columns;
use crate::layout::{Numbers, lay_out};
use choices::{Choices, choices_in};
use fields::field_at;
use fields::refusal::Refusal;
use planning::recording::plan;
use reading::recording::clear;

// The blocks met, the fragments of data chains, columns and omissions, the groups that another stands for, and the layout's numbers.
#[derive(Clone, Copy)]
pub struct Decision {
    pub items: u64,
    pub fragments: u64,
    pub columns: u64,
    pub omissions: u64,
    pub shared: u64,
    pub numbers: Numbers,
}

// 1: the identification is 64 bytes that begin with `MDF`, five blanks, `4.20`, four blanks; the history text has at most 4,096 bytes.
pub fn lent_in(ident: &[u8], text: &[u8]) -> Result<(), Refusal>
    ensures { verdict_of result ≡ lent_in (untimed [] 0 ident.now text.now built_in) }
{
    if ident.len() != 64
        || field_at::<8>(ident, 0) != 0x2020_2020_2046_444d
        || field_at::<8>(ident, 8) != 0x2020_2020_3032_2e34
        || 4096 < text.len()
    {
        return Err(Refusal::Arguments);
    }
    Ok(())
}

// Every word of the four lent slices zero.
pub fn clear_all(source: &mut [u64], fragments: &mut [u64], columns: &mut [u64], copies: &mut [u64])
    ensures { four source.new fragments.new columns.new copies.new
        ≡ zeros (four source.old fragments.old columns.old copies.old) }
{
    clear(source);
    clear(fragments);
    clear(columns);
    clear(copies);
}

// 2, 26, 27, 3, then the plan and the layout, for a history text of so many bytes.
fn decide_rest(
    image: &[u8],
    size: u64,
    text: u64,
    choices: Choices,
    table: &[u8],
    source: &mut [u64],
    fragments: &mut [u64],
    columns: &mut [u64],
    copies: &mut [u64],
) -> Result<Decision, Refusal>
    requires { (8192 ≤ length source.old) × (8192 ≤ length fragments.old) × (8192 ≤ length columns.old) × (8192 ≤ length copies.old)
        × (text ≤ 4096) }
    ensures { DecidesRest (rules choices table.now) image.now size text
        source.old fragments.old columns.old copies.old result
        source.new fragments.new columns.new copies.new }
{
    if size == 0 {
        return Err(Refusal::BlockSize);
    }
    choices_in(choices, table)?;
    if 4294967296 < (image.len() as u64) {
        return Err(Refusal::ImageSize);
    }
    let planned = plan(image, size, choices, table, source, fragments, columns)?;
    let numbers = lay_out(
        Columns {
            image,
            unit: choices.unit,
            photos: choices.photos,
            size,
            fragments,
            words: columns,
            n: planned.columns,
        },
        text,
        copies,
    )?;
    Ok(Decision {
        items: planned.items,
        fragments: planned.fragments,
        columns: planned.columns,
        omissions: planned.omissions,
        shared: planned.shared,
        numbers,
    })
}

// A recording is decided into four lent slices of 8,192 words: blocks, groups and counts; fragments; columns and omissions; copies and places.
pub fn decide(
    image: &[u8],
    size: u64,
    ident: &[u8],
    text: &[u8],
    choices: Choices,
    table: &[u8],
    source: &mut [u64],
    fragments: &mut [u64],
    columns: &mut [u64],
    copies: &mut [u64],
) -> Result<Decision, Refusal>
    ensures { Decides (untimed image.now size ident.now text.now (rules choices table.now))
        source.old fragments.old columns.old copies.old result
        source.new fragments.new columns.new copies.new }
{
    if source.len() < 8192
        || fragments.len() < 8192
        || columns.len() < 8192
        || copies.len() < 8192
    {
        return Err(Refusal::Arguments);
    }
    lent_in(ident, text)?;
    let found = decide_rest(
        image,
        size,
        text.len() as u64,
        choices,
        table,
        source,
        fragments,
        columns,
        copies,
    );
    if let Err(refusal) = found {
        clear_all(source, fragments, columns, copies);
        return Err(refusal);
    }
    found
}
