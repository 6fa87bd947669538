// The walk of a data chain, and its fragments kept in lent words.
ghost use Rattle.std.specs.Prelude.{◌≡◌, [], ◌∷◌, ◌+◌, ◌*◌, ◌-◌, ◌≤◌, length, set};
ghost use Rattle.base.specs.Field.{Field};
ghost use Rattle.fields.specs.Answer.{verdict_of};
ghost use Rattle.mdf.specs.Block.{links_at};
ghost use Rattle.mdf.specs.Chain.{added, fragment_at, listed, chain};
ghost use Rattle.chains.specs.Node.{which, limits_for, fragment_of};
ghost use Rattle.chains.specs.Kept.{kept, counted, given, laid};
ghost use Rattle.chains.specs.Turn.{list_at, list_turn, header_turn, turn_at, moved, laid_turn};

use crate::node::{Node, SrcBlock, node_at};
use blocks::block::{first_link, length_in, links_at};
use fields::refusal::Refusal;

// The refusal that stopped a chain; count: the fragments kept, with those before the chain.
#[derive(Clone, Copy, Debug, PartialEq, Eq)]
pub struct Stopped {
    pub refusal: Refusal,
    pub count: u64,
}

impl From<Stopped> for Refusal {
    ghost from_gives = { λ s e. e ≡ s.refusal };

    fn from(stopped: Stopped) -> Refusal {
        stopped.refusal
    }
}

// A block of the chain: the walk is over, with so many fragments kept, or it goes on at a.
#[derive(Drop)]
enum Step {
    Over(u64),
    Next { a: u64, count: u64 },
}

// A refusal on the way, with n fragments kept before it.
fn counted<T>(n: u64, checked: Result<T, Refusal>) -> Result<T, Stopped>
    ensures { result ≡ counted n checked }
{
    match checked {
        Ok(x) => Ok(x),
        Err(refusal) => Err(Stopped { refusal, count: n }),
    }
}

// A word of the slice; one past its end is lost.
fn put(w: &mut [u64], i: u64, x: u64)
    ensures { w.new ≡ set w.old i x }
{
    let at = i as usize;
    if at < w.len() {
        w[at] = x;
    }
}

// The three words of a fragment, past those of n others; what would lie past the slice's end is lost.
fn keep(fragments: &mut [u64], n: u64, b: SrcBlock)
    ensures { fragments.new ≡ kept n (fragment_of b ∷ []) fragments.old }
{
    let most = fragments.len() as u64;
    if n < most {
        let i = 3 * n;
        put(fragments, i, b.offset);
        put(fragments, i + 1, b.size);
        put(fragments, i + 2, u64::from(b.kind));
    }
}

// The number of the eight bytes at p. The block of a DL is tested whole, so the loop over its links tests none of them.
fn eight_at(s: &[u8], p: usize) -> u64
    requires { p + 8 ≤ length s.now }
    ensures { Field 8 s.now p result }
{
    let mut bytes = [0u8; 8];
    bytes.copy_from_slice(&s[p..p + 8]);
    u64::from_le_bytes(bytes)
}

// 8, 9, range, then the limit (19), of a DL or HL with k of them before it.
fn list_in(most: u64, image: &[u8], k: usize, a: u64) -> Result<(), Refusal>
    ensures { verdict_of result ≡ list_at most 256 k image.now a }
{
    length_in(most, image, a)?;
    if k < 256 {
        return Ok(());
    }
    Err(Refusal::OverLimit(a))
}

// How a chain is walked; signal: a channel's signal data; file: within the limits of a file whose columns are read.
#[derive(Clone, Copy)]
struct Walk {
    signal: bool,
    file: bool,
}

impl Walk {
    // The most bytes of a DL (9), and the most fragments (19).
    fn dl_bytes(self) -> u64
        ensures { result ≡ (limits_for self.file).dl_bytes }
    {
        if self.file {
            return 18446744073709551615;
        }
        268435456
    }

    fn most_fragments(self) -> u64
        ensures { result ≡ (limits_for self.file).fragments }
    {
        if self.file {
            return 4611686018427387904;
        }
        1024
    }

    // A fragment more, whose header stands at a, after n others: within the limit (19).
    fn add(self, fragments: &mut [u64], n: u64, a: u64, b: SrcBlock) -> Result<u64, Stopped>
        ensures { given result fragments.new ≡ laid (added (limits_for self.file) n a (fragment_of b) []) n fragments.old }
    {
        if n < self.most_fragments() {
            keep(fragments, n, b);
            return Ok(n + 1);
        }
        Err(Stopped {
            refusal: Refusal::OverLimit(a),
            count: n,
        })
    }

    // A fragment that a DL lists: header range, 12 for another kind, 19.
    fn fragment_at(
        self,
        image: &[u8],
        fragments: &mut [u64],
        n: u64,
        a: u64,
    ) -> Result<u64, Stopped>
        ensures { given result fragments.new ≡
            laid (fragment_at (which self.signal) (limits_for self.file) image.now n a []) n fragments.old }
    {
        let node = counted(n, node_at(self.signal, image, a))?;
        match node {
            Node::Fragment(b) => self.add(fragments, n, a, b),
            _ => Err(Stopped {
                refusal: Refusal::NotInChain(a),
                count: n,
            }),
        }
    }

    // The fragments that the DL at a lists: its links but the first, which lie in the image; zero is passed over.
    fn list(self, image: &[u8], fragments: &mut [u64], n: u64, a: u64) -> Result<u64, Stopped>
        requires { a + 24 + 8 * links_at image.now a ≤ length image.now }
        ensures { given result fragments.new ≡
            laid (listed (which self.signal) (limits_for self.file) image.now n
            (links_at image.now a - 1) (a + 32) []) n fragments.old }
    {
        let links = links_at(image, a);
        let mut count = n;
        for i in 1..links {
            let link = eight_at(image, (a + 24 + 8 * i) as usize);
            if link == 0 {
                continue;
            }
            count = self.fragment_at(image, fragments, count, link)?;
        }
        Ok(count)
    }

    // A DL: its fragments, then its first link.
    fn list_step(
        self,
        image: &[u8],
        fragments: &mut [u64],
        n: u64,
        k: usize,
        a: u64,
    ) -> Result<Step, Stopped>
        ensures { moved result fragments.new ≡
            laid_turn (list_turn (which self.signal) (limits_for self.file) image.now n k a) n fragments.old }
    {
        counted(n, list_in(self.dl_bytes(), image, k, a))?;
        let next = first_link(image, a);
        let count = self.list(image, fragments, n, a)?;
        Ok(Step::Next { a: next, count })
    }

    // An HL: its first link.
    fn header_step(
        self,
        image: &[u8],
        fragments: &mut [u64],
        n: u64,
        k: usize,
        a: u64,
    ) -> Result<Step, Stopped>
        ensures { moved result fragments.new ≡
            laid_turn (header_turn (limits_for self.file) image.now k a) n fragments.old }
    {
        counted(n, list_in(268435456, image, k, a))?;
        Ok(Step::Next {
            a: first_link(image, a),
            count: n,
        })
    }

    // The block at a, with k DL and HL before it.
    fn node_step(
        self,
        image: &[u8],
        fragments: &mut [u64],
        n: u64,
        k: usize,
        a: u64,
    ) -> Result<Step, Stopped>
        ensures { moved result fragments.new ≡
            laid_turn (turn_at (which self.signal) (limits_for self.file) image.now n k a) n fragments.old }
    {
        let node = counted(n, node_at(self.signal, image, a))?;
        match node {
            Node::Fragment(b) => {
                let count = self.add(fragments, n, a, b)?;
                Ok(Step::Over(count))
            }
            Node::Dl => self.list_step(image, fragments, n, k, a),
            Node::Hl => self.header_step(image, fragments, n, k, a),
        }
    }
}

// The data chain from a on; signal: a channel's signal data; file: within the limits of a file whose columns are read. n fragments are kept already,
// and those found are kept past them, three words for each.
pub fn chain(
    signal: bool,
    file: bool,
    image: &[u8],
    fragments: &mut [u64],
    n: u64,
    a: u64,
) -> Result<u64, Stopped>
    ensures { given result fragments.new ≡
        laid (chain (which signal) (limits_for file) image.now n a) n fragments.old }
{
    let walk = Walk { signal, file };
    let mut met = [0u64; 256];
    let mut k: usize = 0;
    let mut at = a;
    let mut count = n;
    while at != 0 {
        if met[..k].contains(&at) {
            return Err(Stopped {
                refusal: Refusal::MetAgain(at),
                count,
            });
        }
        match walk.node_step(image, fragments, count, k, at)? {
            Step::Over(kept) => {
                return Ok(kept);
            }
            Step::Next {
                a: next,
                count: kept,
            } => {
                met[k] = at;
                k += 1;
                at = next;
                count = kept;
            }
        }
    }
    Ok(count)
}
