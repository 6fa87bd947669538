// The listing of a recording: the columns and omissions that its conversion plans, or its refusal.
ghost use Rattle.std.specs.Prelude.{◌≤◌};
ghost use Rattle.choices.specs.Chosen.{rules};
ghost use Rattle.placing.specs.Decision.{untimed, four};
ghost use Rattle.texts.specs.Laid.{Laid};
ghost use Rattle.listing.specs.Lines.{AllCount};
ghost use Rattle.listing.specs.Listed.{answer_in, Listed};

use crate::lines::{Plan, put_plan_lines};
use choices::Choices;
use placing::decide::{Decision, clear_all, decide};
use texts::put_refusal;

// 20 for an output shorter than the file, 21 for a list too short for the omissions, else the plan that stands in words.
fn put_answer(lines: &mut [u8], plan: Plan, found: Decision, out: u64, list_words: u64) -> usize
    requires { (found.columns ≤ 512) × (found.omissions ≤ 1024)
        × AllCount plan.image.now plan.columns.now plan.fragments.now found.columns }
    ensures { Laid 0 (answer_in plan.entry.image.now plan.entry.size plan.entry.columns.now plan.entry.fragments.now
        found.columns found.omissions found.numbers.file_size out list_words) 119354 lines.old lines.new result }
{
    let bytes = found.numbers.file_size;
    if out < bytes {
        return put_refusal(lines, 20, bytes);
    }
    let words = 2 * found.omissions + 1;
    if list_words < words {
        return put_refusal(lines, 21, words);
    }
    put_plan_lines(lines, 0, plan, found.columns, found.omissions)
}

// The listing by what is chosen, for an output of so many bytes and a list of so many words, and its length. The table says how types are treated. The four work slices hold 8,192 words each.
pub fn list(
    lines: &mut [u8],
    image: &[u8],
    size: u64,
    ident: &[u8],
    text: &[u8],
    choices: Choices,
    table: &[u8],
    out: u64,
    list_words: u64,
    source: &mut [u64],
    fragments: &mut [u64],
    columns: &mut [u64],
    copies: &mut [u64],
) -> usize
    ensures { Listed (untimed image.now size ident.now text.now (rules choices table.now)) out list_words
        (four source.old fragments.old columns.old copies.old) lines.old
        result lines.new (four source.new fragments.new columns.new copies.new) }
{
    let decision = decide(
        image, size, ident, text, choices, table, source, fragments, columns, copies,
    );
    match decision {
        Err(refusal) => put_refusal(lines, refusal.number(), refusal.place()),
        Ok(found) => {
            let plan = Plan {
                image,
                size,
                columns,
                fragments,
            };
            let end = put_answer(lines, plan, found, out, list_words);
            clear_all(source, fragments, columns, copies);
            end
        }
    }
}
