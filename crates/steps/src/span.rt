// Which bytes of the file a store has.
ghost use Rattle.steps.specs.Span.{PageAt, Clipped, SpanOf};

// From first up to past.
#[derive(Drop)]
pub struct Span {
    pub first: u64,
    pub past: u64,
}

// Page number k of a file of so many bytes but for its bytes below 8, or the first eight bytes past the last page.
fn page_at(k: u64, size: u64) -> Span
    ensures { PageAt k size result }
{
    match k.checked_mul(4096) {
        Some(from) if from < size => Span {
            first: from.max(8),
            past: from.saturating_add(4096).min(size),
        },
        _ => Span { first: 0, past: 8 },
    }
}

// A span, where a file of so many bytes has it whole; else none.
fn clipped(s: Span, room: u64) -> Span
    ensures { Clipped s room result }
{
    if s.first <= s.past && s.past <= room {
        s
    } else {
        Span { first: 0, past: 0 }
    }
}

// What store number k + 1 has of a file of size bytes: page k, or the first eight bytes past the last page; in a slice of room bytes.
pub(crate) fn span_of(k: u64, size: u64, room: u64) -> Span
    ensures { SpanOf k size room result }
{
    clipped(page_at(k, size), room)
}
