// What of some bytes lies in a window.
ghost use Rattle.windows.specs.Seen.{SeenIn};

// So many bytes lie before the window; the next ones, so many, lie in it, from this index on.
#[derive(Clone, Copy)]
pub struct Seen {
    pub skip: u64,
    pub to: u64,
    pub count: u64,
}

// Of n bytes that stand at index at of the file, in a window of so many bytes that begins at a.
pub fn seen_in(room: u64, a: u64, at: u64, n: u64) -> Seen
    ensures { SeenIn room a at n result }
{
    let skip = a.saturating_sub(at).min(n);
    let to = at.saturating_sub(a).min(room);
    Seen {
        skip,
        to,
        count: (n - skip).min(room - to),
    }
}
