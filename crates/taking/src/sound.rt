// What is asked of every column before the list is looked at (24): its signal data and its master.
ghost use Rattle.std.specs.Prelude.{◌≡◌, ◌<◌};
ghost use Rattle.fields.specs.Answer.{verdict_of};
ghost use Rattle.thin.specs.Kept.{signal_place, is_signal, signal_sound, master_sound, columns_sound};
ghost use Rattle.taking.specs.Opened.{columns_in};
ghost use Rattle.taking.specs.Sound.{sound_at};

use crate::opened::File;
use blocks::block::{SD, header_in, kind_at, length_in, link_at};
use channels::channel_type;
use fields::refusal::Refusal;
use planning::masters::remote_link;
use sheets::line::master_of;

// Link 6 of the CN at c of type 1, 0 for any other.
pub fn signal_place(image: &[u8], c: u64) -> u64
    ensures { result ≡ signal_place image.now c }
{
    if channel_type(image, c) == 1 {
        link_at(image, c, 5)
    } else {
        0
    }
}

// The block at a: header range, 8, range, then 24 where it is no SD.
fn is_signal(image: &[u8], a: u64) -> Result<(), Refusal>
    ensures { verdict_of result ≡ is_signal image.now a }
{
    header_in(image, a)?;
    length_in(u64::MAX, image, a)?;
    if kind_at(image, a) == SD {
        return Ok(());
    }
    Err(Refusal::OtherForm)
}

// The signal data of the CN at c, where it has some.
fn signal_sound(image: &[u8], c: u64) -> Result<(), Refusal>
    ensures { verdict_of result ≡ signal_sound image.now c }
{
    let a = signal_place(image, c);
    if a == 0 {
        return Ok(());
    }
    is_signal(image, a)
}

// 24 where the CG at g names a master that is none of the columns.
fn master_sound(file: &File, g: u64) -> Result<(), Refusal>
    ensures { verdict_of result ≡ master_sound file.now.image.now (columns_in file.now) g }
{
    if remote_link(file.image, g) == 0 {
        return Ok(());
    }
    match master_of(file.image, file.source, file.count, g) {
        Some(_) => Ok(()),
        None => Err(Refusal::OtherForm),
    }
}

// Column k.
fn column_sound(file: &File, k: u64) -> Result<(), Refusal>
    requires { k < file.now.count }
    ensures { verdict_of result ≡ sound_at file.now.image.now file.now.source.now (columns_in file.now) k }
{
    signal_sound(file.image, file.channel(k))?;
    master_sound(file, file.group(k))
}

// All columns, one after the other.
pub(crate) fn columns_sound(file: &File) -> Result<(), Refusal>
    ensures { verdict_of result ≡ columns_sound file.now.image.now (columns_in file.now) (columns_in file.now) }
{
    for k in 0..file.count {
        column_sound(file, k)?;
    }
    Ok(())
}
