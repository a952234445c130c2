// Counts a file of records, or lists it.
//
//     records [--csv] [FILE]      standard input where no FILE is named
//
// To standard output go a line for each run of fixes that were sent in one minute, in the file's order; then a line for
// each answer that the file has, with how often; and the place, from 0, of the first record that the reader does not
// take apart. With --csv it is a line a record, with a head: those columns and that order are python -m mlat_solver
// records'. Floats are written exactly, as C's hexadecimal constants (0x1921fb54442d18p-51): ./records makes decimals
// of them that are read back to the bit.
//
// A file that ends within a record is said on standard error, with its place, and so is one that cannot be read.
#![tactic(auto)]

mod counts;
mod rows;

use counts::Counts;
use refusals::Refusal;
use rows::{print_columns, print_row};
use std::io;
use std::io::Read;
use std::rt::Files;

// A proved loop has to end, and nothing says that a file does: no file has this many records.
const MOST: u64 = 0xff_ffff_ffff_ffff;

// That a file ends within the record at this place.
#[derive(Clone, Copy)]
struct Torn(u64);

// ---- the whole

// The answer of a record, 18 where the reader does not take it apart.
fn answer_of(bytes: &[u8; 176]) -> u32 {
    if reader::check(bytes).is_err() {
        return Refusal::MalformedRecord.number();
    }
    words::u32_at(bytes, 0)
}

// Takes record after record with its place, up to the file's end. How many there are.
fn each<F: FnMut(u64, &[u8; 176])>(file: &mut impl Read, mut take: F) -> Result<u64, Torn>
    requires { F.IsAlwaysCallable take }
{
    for place in 0..MOST {
        let mut bytes = [0u8; 176];
        match host::read_full(file, &mut bytes) {
            176 => take(place, &bytes),
            0 => return Ok(place),
            _ => return Err(Torn(place)),
        }
    }
    Ok(MOST)
}

fn print_torn(rt: &impl Eprint, place: u64) {
    let _ = eprintln!(rt;
        "records: the file ends within the record at place {place}: it is no whole number of records of 176 bytes (16, torn file)"
    );
}

// Lists the records. How many there are.
fn list(rt: &impl Print, file: &mut impl Read) -> Result<u64, Torn> {
    print_columns(rt);
    each(
        file,
        |place, bytes| print_row(rt, bytes, place, answer_of(bytes)),
    )
}

// Counts the records. How many there are.
fn count(rt: &impl Print, file: &mut impl Read) -> Result<u64, Torn> {
    let mut counts = Counts::none();
    let found = each(file, |place, bytes| {
        counts.add(rt, place, answer_of(bytes), words::i64_at(bytes, 72));
    });
    let (Ok(records) | Err(Torn(records))) = found;
    counts.print(rt, records);
    found
}

// The file, or none, which stands for standard input.
fn opened<R: Files>(rt: &R, path: &[u8]) -> io::Result<Option<R::File>> {
    if path.is_empty() {
        return Ok(None);
    }
    host::open_read(rt, path).map(Some)
}

// Lists or counts what is opened.
fn read<R: Print + Eprint + Alloc>(rt: &R, file: &mut impl Read, csv: bool) {
    let found = if csv { list(rt, file) } else { count(rt, file) };
    if let Err(Torn(place)) = found {
        print_torn(rt, place);
    }
    host::sound(rt, file, b"records: reading");
}

// Lists or counts the file, or standard input.
fn all<R: Files + Print + Eprint + Alloc>(rt: &R, input: &mut impl Read, path: &[u8], csv: bool) {
    match opened(rt, path) {
        Ok(None) => read(rt, input, csv),
        Ok(Some(mut file)) => read(rt, &mut file, csv),
        Err(error) => host::fail(rt, path, error),
    }
}

fn main(rt: HostRuntime) {
    let mut input = rt.stdin();
    let mut word = host::buffer();
    let mut path = host::buffer();
    let w = host::arg(&rt, 1, &mut word);
    let p = host::arg(&rt, 2, &mut path);
    let csv = check::same(&word[..w], b"--csv");
    if host::arg_count(&rt) > 3 || host::arg_count(&rt) == 3 && !csv {
        host::say(&rt, "usage: records [--csv] [FILE]\n");
        return;
    }
    let path = if csv { &path[..p] } else { &word[..w] };
    all(&rt, &mut input, path, csv);
}
