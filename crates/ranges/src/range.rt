// Every fragment's range, by a second pass over a data chain that the walk has passed.
ghost use Rattle.std.specs.Prelude.{◌≡◌, [], ◌∷◌};
ghost use Rattle.fields.specs.Answer.{verdict_of};
ghost use Rattle.mdf.specs.Block.{links_at};
ghost use Rattle.mdf.specs.Records.{ranges_in};
ghost use Rattle.chains.specs.Node.{fragment_of};
ghost use Rattle.ranges.specs.Ranged.{entry_range, ranges_from, pass_at, chain_ranges, pass_of};

use blocks::block::{first_link, link_at, links_at};
use chains::node::{Node, SrcBlock, node_at};
use fields::refusal::Refusal;

// A block of a chain: the pass is over, or it goes on.
#[derive(Drop)]
enum Passed {
    Over,
    On,
}

// 4: the data of a block runs past the image.
fn block_range(image: &[u8], b: SrcBlock) -> Result<(), Refusal>
    ensures { verdict_of result ≡ ranges_in image.now (fragment_of b ∷ []) }
{
    let n = image.len() as u64;
    if n < b.offset || n - b.offset < b.size {
        return Err(Refusal::OutOfImage(b.offset));
    }
    Ok(())
}

// The block that a link of a DL leads to.
fn entry_range(image: &[u8], link: u64) -> Result<(), Refusal>
    ensures { verdict_of result ≡ entry_range image.now link }
{
    if link == 0 {
        return Ok(());
    }
    match node_at(false, image, link) {
        Ok(Node::Fragment(b)) => block_range(image, b),
        Ok(Node::Dl) => Ok(()),
        Ok(Node::Hl) => Ok(()),
        Err(_) => Ok(()),
    }
}

// The blocks that the DL at a lists.
fn list_ranges(image: &[u8], a: u64) -> Result<(), Refusal>
    ensures { verdict_of result ≡ ranges_from image.now a (links_at image.now a) 1 }
{
    let links = links_at(image, a);
    for i in 1..links {
        entry_range(image, link_at(image, a, i))?;
    }
    Ok(())
}

// The block at a: a data block ends the chain, a DL's blocks are passed.
fn pass_at(image: &[u8], a: u64) -> Result<Passed, Refusal>
    ensures { pass_of result ≡ pass_at image.now a }
{
    match node_at(false, image, a) {
        Ok(Node::Fragment(b)) => {
            block_range(image, b)?;
            Ok(Passed::Over)
        }
        Ok(Node::Dl) => {
            list_ranges(image, a)?;
            Ok(Passed::On)
        }
        Ok(Node::Hl) => Ok(Passed::On),
        Err(_) => Ok(Passed::Over),
    }
}

// The chain from a on.
pub fn chain_ranges(image: &[u8], a: u64) -> Result<(), Refusal>
    ensures { verdict_of result ≡ chain_ranges image.now 258 a }
{
    let mut at = a;
    'turns: for _turn in 0..258u64 {
        if at == 0 {
            return Ok(());
        }
        match pass_at(image, at)? {
            Passed::Over => {
                return Ok(());
            }
            Passed::On => {
                at = first_link(image, at);
            }
        }
    }
    Ok(())
}
