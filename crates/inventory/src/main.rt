// Prints the inventory sheet of a column file, or its refusal: of the file on standard input, then of each that an argument names.
#![tactic(auto)]

use sheets::column_file::sheet;
use std::alloc::Global;
use std::io::{Input, Read, Write};
use std::rt::Files;
use std::{env, fs, io};

// An image has at most so many bytes.
const IMAGE_BYTES: u64 = 65536;

// The sheet of an image.
fn show<W: Write>(out: &mut W, image: &[u8]) -> io::Result<()> {
    let mut lines = [0u8; 65536];
    let n = sheet(&mut lines, image);
    out.write_all(&lines[..n])
}

// The sheet of what a reader gives, up to 65,536 bytes.
fn show_input<W: Write, I: Read + Drop>(out: &mut W, alloc: Global, input: I) -> io::Result<()> {
    let mut image = Vec::new(alloc);
    let mut first = input.take(IMAGE_BYTES + 1);
    first.read_to_end(&mut image)?;
    if IMAGE_BYTES < image.len() as u64 {
        return writeln!(out, "input too long");
    }
    show(out, image.as_slice())
}

// The file of this name. One that cannot be opened gets a line on standard error.
fn show_named<R: Files + Eprint + AllocGlobal, W: Write>(
    rt: &R,
    out: &mut W,
    name: &str,
) -> io::Result<()> {
    writeln!(out, "{name}")?;
    match fs::open(rt, name) {
        Ok(file) => show_input(out, rt.alloc(), file),
        Err(error) => eprintln!(rt; "{name}: {error}"),
    }
}

fn main(rt: HostRuntime) -> io::Result<()> {
    let mut out = io::writer(&rt);
    show_input(&mut out, rt.alloc(), rt.reader())?;
    for name in env::args(&rt)?.skip(1) {
        show_named(&rt, &mut out, name.as_str())?;
    }
    Ok(())
}
