// Holds the conversion to the Rust's answers: converts each image of the file `answers`, prints a line for each answer that differs, then how many
// are the same. `tools/differ/run answers` writes the file; tools/differ/src/answers.rs says what stands in it.
#![tactic(auto)]

use choices::Choices;
use fields::field_at;
use fields::refusal::Refusal;
use std::io::{Read, Write};
use std::{fs, io};
use writing::convert::{Report, convert};

// What comparing an answer gives.
#[derive(Drop)]
enum Compared {
    Unread,
    Differs,
    Accepted,
    Refused,
}

// A record of the file: its numbers, the identification, the image, the history text, and the bytes and omissions of the answer.
#[derive(Clone, Copy)]
struct Record<'a> {
    head: &'a [u8],
    ident: &'a [u8],
    image: &'a [u8],
    text: &'a [u8],
    result: &'a [u8],
    omitted: &'a [u8],
}

// The number at an index.
fn number(s: &[u8], at: u64) -> u64 {
    field_at::<8>(s, at)
}

// The line of answer k.
fn differs<W: Write>(out: &mut W, k: u64, what: &str) -> io::Result<Compared> {
    writeln!(out, "answer {k}: {what}")?;
    Ok(Compared::Differs)
}

// Fills the first n bytes of a slice; false where it or the file is too short, or a read fails.
fn fill<F: Read>(file: &mut F, to: &mut [u8], n: u64) -> bool {
    let k = n as usize;
    if to.len() < k {
        return false;
    }
    file.read_exact(&mut to[..k]).is_ok()
}

// The first n bytes of a slice, or all of it.
fn part(s: &[u8], n: u64) -> &[u8] {
    let k = n as usize;
    if s.len() < k {
        return s;
    }
    &s[..k]
}

// Whether a list has n omissions with these addresses and reasons.
fn same_list(list: &[u64; 2049], words: &[u8], n: u64) -> bool {
    if list[0] != n || 1024 < n {
        return false;
    }
    for i in 0..2 * n {
        if list[i as usize + 1] != number(words, 8 * i) {
            return false;
        }
    }
    true
}

// The seven counts of a record.
fn report_in(head: &[u8]) -> Report {
    Report {
        source_groups: number(head, 80),
        time_groups: number(head, 88),
        signal_groups: number(head, 96),
        shared_time_groups: number(head, 104),
        data_blocks: number(head, 112),
        metadata_size: number(head, 120),
        file_size: number(head, 128),
    }
}

// A refusal beside a record's: its number and, where that is known, its place.
fn refused<W: Write>(to: &mut W, k: u64, head: &[u8], refusal: Refusal) -> io::Result<Compared> {
    let n = refusal.number();
    let place = refusal.place();
    if number(head, 16) == 0
        && number(head, 24) == n
        && (number(head, 32) == 0 || number(head, 40) == place)
    {
        return Ok(Compared::Refused);
    }
    writeln!(to, "answer {k}: refused {n} place {place}")?;
    Ok(Compared::Differs)
}

// An accepted image beside a record's: report, bytes and omissions.
fn accepted<W: Write>(
    to: &mut W,
    k: u64,
    record: Record,
    report: Report,
    out: &[u8],
    list: &[u64; 2049],
) -> io::Result<Compared> {
    let head = record.head;
    if number(head, 16) == 0 {
        return differs(to, k, "accepted");
    }
    if report != report_in(head) {
        return differs(to, k, "another report");
    }
    let n = number(head, 64);
    if part(out, n) != part(record.result, n) {
        return differs(to, k, "other bytes");
    }
    if !same_list(list, record.omitted, number(head, 72)) {
        return differs(to, k, "other omissions");
    }
    Ok(Compared::Accepted)
}

// The conversion of a record's image beside its answer.
fn compare<W: Write>(to: &mut W, k: u64, record: Record) -> io::Result<Compared> {
    let mut source = [0u64; 8192];
    let mut fragments = [0u64; 8192];
    let mut columns = [0u64; 8192];
    let mut copies = [0u64; 8192];
    let mut out = [0u8; 16384];
    let mut list = [0u64; 2049];
    let answer = convert(
        record.image,
        number(record.head, 8),
        record.ident,
        record.text,
        number(record.head, 56),
        Choices {
            unit: 8,
            share: false,
            photos: false,
        },
        b"",
        &mut source,
        &mut fragments,
        &mut columns,
        &mut copies,
        &mut out,
        &mut list,
    );
    match answer {
        Err(refusal) => refused(to, k, record.head, refusal),
        Ok(report) => accepted(to, k, record, report, &out, &list),
    }
}

// The file's next record, the one of answer k.
fn next<W: Write, F: Read>(to: &mut W, file: &mut F, k: u64) -> io::Result<Compared> {
    let mut head = [0u8; 136];
    let mut ident = [0u8; 64];
    let mut image = [0u8; 4096];
    let mut text = [0u8; 4096];
    let mut result = [0u8; 16384];
    let mut omitted = [0u8; 16384];
    if !fill(file, &mut head, 136) || !fill(file, &mut ident, 64) {
        return Ok(Compared::Unread);
    }
    let images = number(&head, 0);
    let texts = number(&head, 48);
    let omissions = number(&head, 72);
    if 1024 < omissions
        || !fill(file, &mut image, images)
        || !fill(file, &mut text, texts)
        || !fill(file, &mut result, number(&head, 64))
        || !fill(file, &mut omitted, 16 * omissions)
    {
        return Ok(Compared::Unread);
    }
    compare(
        to,
        k,
        Record {
            head: &head,
            ident: &ident,
            image: part(&image, images),
            text: part(&text, texts),
            result: &result,
            omitted: &omitted,
        },
    )
}

// The answers of a file.
fn all<W: Write, F: Read>(to: &mut W, file: &mut F) -> io::Result<()> {
    let mut head = [0u8; 8];
    if !fill(file, &mut head, 8) {
        return Ok(());
    }
    let n = number(&head, 0);
    let mut accepted: u64 = 0;
    let mut refused: u64 = 0;
    for k in 0..n {
        match next(to, file, k)? {
            Compared::Unread => return writeln!(to, "cut short at answer {k}"),
            Compared::Differs => {}
            Compared::Accepted => accepted += 1,
            Compared::Refused => refused += 1,
        }
    }
    let same = accepted + refused;
    writeln!(
        to,
        "{n} answers, {same} the same: {accepted} accepted, {refused} refused"
    )
}

fn main(rt: HostRuntime) -> io::Result<()> {
    match fs::open(&rt, "answers") {
        Ok(mut file) => all(&mut io::writer(&rt), &mut file),
        Err(error) => eprintln!(rt; "answers: {error}"),
    }
}
