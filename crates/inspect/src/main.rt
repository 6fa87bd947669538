// Prints what reading finds in each recording that an argument names.
#![tactic(auto)]

use reading::recording::read;
use std::alloc::Global;
use std::io::{Read, Write};
use std::rt::Files;
use std::{env, fs, io};

// At most so many bytes of a recording are read.
const IMAGE_BYTES: u64 = 65536;

// What reading finds in an image.
fn show<W: Write>(out: &mut W, image: &[u8]) -> io::Result<()> {
    let mut source = [0u64; 4096];
    let mut fragments = [0u64; 3072];
    match read(image, &mut source, &mut fragments) {
        Err(refusal) => {
            write!(
                out,
                " refused {} place {}",
                refusal.number(),
                refusal.place()
            )?;
        }
        Ok(found) => {
            write!(out, " items {} groups {}", found.items, found.groups)?;
            write!(out, " fragments {} counts", found.fragments)?;
            for count in source[3584..].iter().take(found.groups as usize) {
                write!(out, " {count}")?;
            }
        }
    }
    writeln!(out)
}

// What reading finds in a file's first bytes.
fn show_file<W: Write, F: io::Read + Drop>(out: &mut W, alloc: Global, file: F) -> io::Result<()> {
    let mut image = Vec::new(alloc);
    let mut first = file.take(IMAGE_BYTES);
    first.read_to_end(&mut image)?;
    show(out, image.as_slice())
}

// The recording of this name. One that cannot be opened gets a line on standard error.
fn inspect<R: Files + Eprint + AllocGlobal, W: Write>(
    rt: &R,
    out: &mut W,
    name: &str,
) -> io::Result<()> {
    write!(out, "{name}")?;
    match fs::open(rt, name) {
        Ok(file) => show_file(out, rt.alloc(), file),
        Err(error) => eprintln!(rt; "{name}: {error}"),
    }
}

fn main(rt: HostRuntime) -> io::Result<()> {
    let mut out = io::writer(&rt);
    for name in env::args(&rt)?.skip(1) {
        inspect(&rt, &mut out, name.as_str())?;
    }
    Ok(())
}
