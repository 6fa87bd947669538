// Prints the columns and omissions that a conversion plans, or its refusal: of the recording on standard input, then of each that an argument names.
#![tactic(auto)]

use choices::Choices;
use listing::recording::list;
use std::alloc::Global;
use std::io::{Input, Read, Write};
use std::rt::Files;
use std::{env, fs, io};
use writing::convert::convert;

// An image has at most so many bytes.
const IMAGE_BYTES: u64 = 65536;

// How each image is converted.
const CHOICES: Choices = Choices {
    unit: 8,
    share: false,
    photos: false,
};

// The lines of an image's conversion.
fn show<W: Write>(to: &mut W, image: &[u8]) -> io::Result<()> {
    let ident =
        b"MDF     4.20    sitaungo\0\0\0\0\xa4\x01\0\0\0\0\0\0\0\0\0\0\0\0\0\0\0\0\0\0\0\0\0\0\0\0\0\0\0\0\0\0\0\0\0\0";
    let mut source = [0u64; 8192];
    let mut fragments = [0u64; 8192];
    let mut columns = [0u64; 8192];
    let mut copies = [0u64; 8192];
    let mut out = [0u8; 65536];
    let mut omitted = [0u64; 2049];
    let mut lines = [0u8; 131072];
    let _ = convert(
        image,
        64,
        ident,
        b"convert",
        0,
        CHOICES,
        b"",
        &mut source,
        &mut fragments,
        &mut columns,
        &mut copies,
        &mut out,
        &mut omitted,
    );
    let n = list(
        &mut lines,
        image,
        64,
        ident,
        b"convert",
        CHOICES,
        b"",
        65536,
        2049,
        &mut source,
        &mut fragments,
        &mut columns,
        &mut copies,
    );
    to.write_all(&lines[..n])
}

// The lines of what a reader gives, up to 65,536 bytes.
fn show_input<W: Write, I: Read + Drop>(to: &mut W, alloc: Global, input: I) -> io::Result<()> {
    let mut image = Vec::new(alloc);
    let mut first = input.take(IMAGE_BYTES + 1);
    first.read_to_end(&mut image)?;
    if IMAGE_BYTES < image.len() as u64 {
        return writeln!(to, "input too long");
    }
    show(to, image.as_slice())
}

// The recording of this name. One that cannot be opened gets a line on standard error.
fn show_named<R: Files + Eprint + AllocGlobal, W: Write>(
    rt: &R,
    to: &mut W,
    name: &str,
) -> io::Result<()> {
    writeln!(to, "{name}")?;
    match fs::open(rt, name) {
        Ok(file) => show_input(to, rt.alloc(), file),
        Err(error) => eprintln!(rt; "{name}: {error}"),
    }
}

fn main(rt: HostRuntime) -> io::Result<()> {
    let mut to = io::writer(&rt);
    show_input(&mut to, rt.alloc(), rt.reader())?;
    for name in env::args(&rt)?.skip(1) {
        show_named(&rt, &mut to, name.as_str())?;
    }
    Ok(())
}
