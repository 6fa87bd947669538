// What stands at an address of a data chain.
ghost use Rattle.std.specs.Prelude.{◌≡◌, ◌+◌, ◌≤◌, length};
ghost use Rattle.mdf.specs.Chain.{fragment, leaf_of};
ghost use Rattle.work_words.specs.Words.{kind_word};
ghost use Rattle.chains.specs.Node.{which, kind_of, fragment_of, leaf_from, node_at, node_of};

use blocks::block::{DL, DT, DV, HL, SD, header_in, kind_at, size_at};
use fields::refusal::Refusal;

// The kind of a fragment: DT (SD too) or DV.
#[derive(Clone, Copy, Debug, PartialEq, Eq)]
pub enum Kind {
    Dt,
    Dv,
}

// The word of a kind.
impl From<Kind> for u64 {
    ghost from_gives = { λ k w. w ≡ kind_word (kind_of k) };

    fn from(kind: Kind) -> u64 {
        match kind {
            Kind::Dt => 0,
            Kind::Dv => 1,
        }
    }
}

// A fragment: where its data begins, its length and its kind.
#[derive(Clone, Copy)]
pub struct SrcBlock {
    pub offset: u64,
    pub size: u64,
    pub kind: Kind,
}

// A fragment, a DL or an HL.
#[derive(Clone, Copy)]
pub enum Node {
    Fragment(SrcBlock),
    Dl,
    Hl,
}

// The kind of fragment that a block is in a chain: DT and DV are fragments of a DG's data, SD of a channel's signal data.
pub fn leaf_of(signal: bool, kind: u64) -> Option<Kind>
    ensures { leaf_from result ≡ leaf_of (which signal) kind }
{
    if signal {
        if kind == SD {
            return Some(Kind::Dt);
        }
        return None;
    }
    if kind == DT {
        return Some(Kind::Dt);
    }
    if kind == DV {
        return Some(Kind::Dv);
    }
    None
}

// The fragment with its header at a: its data begins 24 past it; a length under 24 leaves no data.
fn fragment_of(image: &[u8], a: u64, kind: Kind) -> SrcBlock
    requires { a + 24 ≤ length image.now }
    ensures { fragment_of result ≡ fragment image.now a (kind_of kind) }
{
    let size = size_at(image, a);
    if size < 24 {
        return SrcBlock {
            offset: a + 24,
            size: 0,
            kind,
        };
    }
    SrcBlock {
        offset: a + 24,
        size: size - 24,
        kind,
    }
}

// Header range, 12, then by the block's kind.
pub fn node_at(signal: bool, image: &[u8], a: u64) -> Result<Node, Refusal>
    ensures { node_of result ≡ node_at (which signal) image.now a }
{
    header_in(image, a)?;
    let kind = kind_at(image, a);
    if let Some(leaf) = leaf_of(signal, kind) {
        return Ok(Node::Fragment(fragment_of(image, a, leaf)));
    }
    if kind == DL {
        return Ok(Node::Dl);
    }
    if kind == HL {
        return Ok(Node::Hl);
    }
    Err(Refusal::NotInChain(a))
}
