// Many ranges of a column file fetched in one call (document 02, request 2).
ghost use Rattle.std.specs.Prelude.{◌≡◌, true, ◌+◌, ◌*◌, ◌<◌, leb, length};
ghost use Rattle.fields.specs.Answer.{number_of, place_of};
ghost use Rattle.file.specs.Plot.{single, plotted};
ghost use Rattle.ranges.specs.Open.{Holds};
ghost use Rattle.ranges.specs.Read.{copied_as};
ghost use Rattle.ranges.specs.Turn.{entry_of, entries_of, laid, ended, turn_of, turns_of, start_of, answered};

use crate::form::record_bytes;
use crate::open::open_columns;
use crate::read::{ask_opened, fill};
use fields::refusal::Refusal;

// An entry of the table: count records of a column, from record first on, go to a place in the destination.
#[repr(C)]
#[derive(Clone, Copy)]
pub struct Request {
    pub column: u64,
    pub first: u64,
    pub count: u64,
    pub place: u64,
}

// Whether all entries were served; if not, the refusal's number and place and the entry's position, else 0.
#[repr(C)]
#[derive(Drop)]
pub struct Plotting {
    pub accepted: bool,
    pub number: u64,
    pub place: u64,
    pub position: u64,
}

// Whether count records of w bytes, from a place on, lie in n bytes.
fn lie(n: u64, place: u64, count: u64, w: u64) -> bool
    ensures { result ≡ leb (place + count * w) n }
{
    if n < place {
        return false;
    }
    w == 0 || count <= (n - place) / w
}

// One entry: the single read into its part of the destination.
fn entry(
    image: &[u8],
    source: &[u64; 4096],
    request: Request,
    destination: &mut [u8],
) -> Result<(), Refusal>
    requires { Holds image.now source.now }
    ensures { copied_as result destination.new ≡ single image.now (entry_of request) destination.old }
{
    let granted = ask_opened(image, source, request.column, request.first, request.count)?;
    let w = record_bytes(image, granted.cg);
    let all = destination.len() as u64;
    if !lie(all, request.place, request.count, w) {
        return Err(Refusal::OutsideDestination);
    }
    let from = request.place as usize;
    let to = from + (request.count * w) as usize;
    if from < to {
        fill(
            image,
            granted.dg,
            request.first,
            w,
            &mut destination[from..to],
        );
    }
    Ok(())
}

// The answer where an entry is refused.
fn refused(refusal: Refusal, position: u64) -> Plotting
    ensures { result ≡ ended (number_of refusal) (place_of refusal) position }
{
    Plotting {
        accepted: false,
        number: refusal.number(),
        place: refusal.place(),
        position,
    }
}

// Entry number i, where none before it was refused.
fn turn(
    state: Plotting,
    image: &[u8],
    source: &[u64; 4096],
    i: usize,
    request: Request,
    destination: &mut [u8],
) -> Plotting
    requires { state.accepted ≡ true → Holds image.now source.now }
    ensures { laid result destination.new ≡ turn_of image.now i request (laid state destination.old) }
{
    if state.accepted {
        if let Err(refusal) = entry(image, source, request, destination) {
            return refused(refusal, i as u64);
        }
    }
    state
}

// How many entries are served: none of a table of over 256.
fn turns(n: usize) -> usize
    ensures { result ≡ turns_of n }
{
    if n <= 256 { n } else { 0 }
}

// 25 for a table of over 256 entries; then the file is opened, for an empty table not.
fn begin(image: &[u8], source: &mut [u64; 4096], n: usize) -> Plotting
    ensures { length source.old ≡ 4096 → (result ≡ start_of image.now n)
        × (0 < n → result.accepted ≡ true → Holds image.now source.new) }
{
    if 256 < n {
        return refused(Refusal::OutsideDestination, 0);
    }
    if 0 < n {
        if let Err(refusal) = open_columns(image, source) {
            return refused(refusal, 0);
        }
    }
    Plotting {
        accepted: true,
        number: 0,
        place: 0,
        position: 0,
    }
}

// All entries of the table in turn, up to the first that is refused. The file is looked through once.
pub fn plot(image: &[u8], table: &[Request], destination: &mut [u8]) -> Plotting
    ensures { laid result destination.new
        ≡ answered (plotted image.now (entries_of table.now) destination.old) }
{
    let mut source = [0u64; 4096];
    let n = turns(table.len());
    let mut state = begin(image, &mut source, table.len());
    for i in 0..n {
        state = turn(state, image, &source, i, table[i], destination);
    }
    state
}
