// Photos that belong to a channel (document 02, request 9): the attachments of the header's chain, and a channel's references to them.
#![tactic(auto)]

ghost use Rattle.std.specs.Prelude.{◌≡◌, ◌≤◌, length, eqb};
ghost use Rattle.fields.specs.Answer.{verdict_of};
ghost use Rattle.mdf.specs.Chain.{is_in};
ghost use Rattle.plan.specs.Channel.{either};
ghost use Rattle.plan.specs.Photos.{attachment_in, header_chain, header_attachments, photo_count, references, photos_of, are_attached, photos_first, photos_in};
ghost use Rattle.photos.specs.Followed.{goes_on, going_as, Follows};

use blocks::block::{data_field, first_link, header_in, kind_at, link_at, links_at, size_at};
use fields::refusal::Refusal;

const AT: u64 = 1413554979;

// 18, then the whole range (4).
pub fn attachment_in(image: &[u8], a: u64) -> Result<(), Refusal>
    ensures { verdict_of result ≡ attachment_in image.now a }
{
    let links = links_at(image, a);
    if links < 4 {
        return Err(Refusal::BrokenAttachment(a));
    }
    let size = size_at(image, a);
    if size < 24 {
        return Err(Refusal::BrokenAttachment(a));
    }
    if (size - 24) / 8 < links {
        return Err(Refusal::BrokenAttachment(a));
    }
    if 33554429 < links {
        return Err(Refusal::BrokenAttachment(a));
    }
    let n = image.len() as u64;
    if n < a {
        return Err(Refusal::OutOfImage(a));
    }
    if n - a < size {
        return Err(Refusal::OutOfImage(a));
    }
    Ok(())
}

// The attachment chain ends here, or goes on.
#[derive(Clone, Copy, Debug, PartialEq, Eq)]
pub enum Going {
    Ends,
    On,
}

// Whether the chain goes on at a, where it was met before or not, after n attachments: it ends at 0, at an AT met before and at another kind;
// header range (4), 18, whole range (4), 19.
pub fn goes_on(image: &[u8], a: u64, met: bool, n: u64) -> Result<Going, Refusal>
    ensures { going_as result ≡ goes_on image.now a met n }
{
    if a == 0 {
        return Ok(Going::Ends);
    }
    if met {
        return Ok(Going::Ends);
    }
    header_in(image, a)?;
    if kind_at(image, a) != AT {
        return Ok(Going::Ends);
    }
    attachment_in(image, a)?;
    if n < 64 {
        return Ok(Going::On);
    }
    Err(Refusal::OverLimit(a))
}

// The attachments of the header's chain, an address a word, and their number.
fn follow(image: &[u8], met: &mut [u64; 64]) -> Result<usize, Refusal>
    ensures { Follows (header_chain image.now) result met.new }
{
    let mut at = link_at(image, 64, 3);
    let mut count = 0;
    loop {
        let seen = met[..count].contains(&at);
        let Going::On = goes_on(image, at, seen, count as u64)? else {
            return Ok(count);
        };
        met[count] = at;
        count += 1;
        at = first_link(image, at);
    }
}

// What planning starts with where references are kept: the attachments up to 19.
pub fn photos_first(photos: bool, image: &[u8]) -> Result<(), Refusal>
    ensures { verdict_of result ≡ photos_first photos image.now }
{
    if photos {
        follow(image, &mut [0u64; 64])?;
    }
    Ok(())
}

// How many references the CN at c has.
fn photo_count(image: &[u8], c: u64) -> u64
    ensures { (result ≡ photo_count image.now c) × (result ≤ 65535) }
{
    data_field::<2>(image, c, 22)
}

// How many of them a column keeps.
pub fn photos_of(photos: bool, image: &[u8], c: u64) -> u64
    ensures { (result ≡ length (photos_of photos image.now c)) × (result ≤ 65535) }
{
    if photos { photo_count(image, c) } else { 0 }
}

// a is 0 or one of the words.
fn is_attached(met: &[u64], a: u64) -> bool
    ensures { result ≡ either (eqb a 0) (is_in a met.now) }
{
    a == 0 || met.contains(&a)
}

// The references of the CN at c are 0 or one of the words.
fn are_attached(image: &[u8], met: &[u64], c: u64) -> bool
    ensures { result ≡ are_attached met.now (references image.now c) }
{
    let n = photo_count(image, c);
    for i in 0..n {
        let a = link_at(image, c, 8 + i);
        if !is_attached(met, a) {
            return false;
        }
    }
    true
}

// The references of the CN at c are 0 or attachments of the header's chain; a chain that is refused has none.
fn are_photos(image: &[u8], c: u64) -> bool
    ensures { result ≡ are_attached (header_attachments image.now) (references image.now c) }
{
    let mut met = [0u64; 64];
    let count = follow(image, &mut met).unwrap_or(0);
    are_attached(image, &met[..count], c)
}

// 28, of the CN at c, where references are kept.
pub fn photos_in(photos: bool, image: &[u8], c: u64) -> Result<(), Refusal>
    ensures { verdict_of result ≡ photos_in photos image.now c }
{
    if !photos {
        return Ok(());
    }
    let n = photo_count(image, c);
    if links_at(image, c) < 8 + n {
        return Err(Refusal::BrokenPhoto(c));
    }
    if n == 0 {
        return Ok(());
    }
    if are_photos(image, c) {
        return Ok(());
    }
    Err(Refusal::BrokenPhoto(c))
}
