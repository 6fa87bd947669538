// What reading gives.

// The number of blocks met, of CG among them, and of fragments.
#[derive(Clone, Copy, Debug, PartialEq, Eq)]
pub struct Read {
    pub items: u64,
    pub groups: u64,
    pub fragments: u64,
}

// A DG's own blocks: where they end, and how many CG are among them.
#[derive(Clone, Copy)]
pub struct Span {
    pub next: u64,
    pub groups: u64,
}
