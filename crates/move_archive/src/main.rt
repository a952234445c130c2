// Moves a file of fix records to the archive's form, or back: document 02, item 7. What it is moved to goes to standard
// output.
//
//     move_archive to FILE      records of 176 bytes, to 152 each
//     move_archive from FILE    records of 152 bytes, back to 176 each
//
// All or nothing: every record is looked at before the first is written. The first that is turned away is said on
// standard error with its place, from 0, and its number, and then nothing is written. Otherwise the number of records
// and the bytes before and after are said there.
#![tactic(auto)]

ghost use Rattle.std.specs.Prelude.{◌≡◌, ◌≤◌, IfOk, IfErr, IfSome};
ghost use Rattle.move_archive.specs.Moved.{new_of, old_of, place_of};

use refusals::Refusal;
use std::convert::AsSlice;
use std::io::Read;
use std::rt::Files;

// A proved loop has to end, and nothing says that a file does: no file has this many records.
const MOST: u64 = 0xff_ffff_ffff_ffff;

// Why the records of a file are not moved to its end: the one at this place is turned away with this number, or
// standard output does not take one, which is said.
#[derive(Clone, Copy, Debug, PartialEq, Eq)]
enum Stop {
    Refused { place: u64, number: u32 },
    Unwritten,
}

// Writes what a record is moved to, if that is asked. Whether nothing fails; where it does, that is said.
fn shown<R: Print + Eprint + Alloc>(rt: &R, out: &[u8], asked: bool) -> bool {
    !asked || host::written(rt, rt.write_all(out), b"move_archive: standard output")
}

// A record, moved to the archive's form, and one that is moved back: the number that it gets, and its bytes, which are
// zeros where it is turned away.
fn to_new(bytes: &[u8]) -> (u32, [u8; 152])
    ensures { result ≡ new_of bytes.now }
{
    let mut new = [0u8; 152];
    let refusal = refusals::answer(archive::to_archive(bytes, &mut new));
    (refusal, new)
}

fn to_old(bytes: &[u8]) -> (u32, [u8; 176])
    ensures { result ≡ old_of bytes.now }
{
    let mut old = [0u8; 176];
    let refusal = refusals::answer(archive::from_archive(bytes, &mut old));
    (refusal, old)
}

// Moves the next record of the file, which is at this place and has `from` bytes, and writes it, if that is asked.
// Whether there was one.
fn next<R: Print + Eprint + Alloc, T: AsSlice<u8> + Copy, F: Fn(&[u8]) -> (u32, T)>(
    rt: &R,
    file: &mut impl Read,
    from: usize,
    moved: &F,
    place: u64,
    write: bool,
) -> Result<bool, Stop>
    requires within { from ≤ 176 }
    requires moves { F.IsAlwaysCallable moved.now }
    ensures { IfErr result (λ stop. place_of stop ≤ place) }
{
    let mut bytes = [0u8; 176];
    let n = host::read_full(file, &mut bytes[..from]);
    if n == 0 {
        return Ok(false);
    }
    let (number, out) = moved(&bytes[..n]);
    if number != 0 {
        return Err(Stop::Refused { place, number });
    }
    if !shown(rt, out.as_slice(), write) {
        return Err(Stop::Unwritten);
    }
    Ok(true)
}

// Moves the records of the file up to its end, or to the first that is turned away. How many there are.
fn run<R: Print + Eprint + Alloc, T: AsSlice<u8> + Copy, F: Fn(&[u8]) -> (u32, T)>(
    rt: &R,
    file: &mut impl Read,
    from: usize,
    moved: &F,
    write: bool,
) -> Result<u64, Stop>
    requires within { from ≤ 176 }
    requires moves { F.IsAlwaysCallable moved.now }
    ensures records { IfOk result (λ records. records ≤ 72057594037927935) }
    ensures place { IfErr result (λ stop. place_of stop ≤ 72057594037927935) }
{
    for place in 0..MOST {
        if !next(rt, file, from, moved, place, write)? {
            return Ok(place);
        }
    }
    Ok(MOST)
}

// Closes the file. Whether reading on in it does not fail; where it does, that is said.
fn closed<R: Eprint + Alloc>(rt: &R, mut file: impl Read + Drop, path: &[u8]) -> bool {
    host::sound(rt, &mut file, path)
}

fn reason(number: u32) -> &'static str {
    if number == Refusal::TornFile.number() {
        "torn file: it is not whole"
    } else if number == Refusal::UnequalMirror.number() {
        "unequal mirror: mirrored covariance entries differ"
    } else {
        "malformed record: it breaks a rule that every fix record meets"
    }
}

// Says which record was turned away, if one was.
fn print_stop(rt: &impl Eprint, stop: Stop) {
    if let Stop::Refused { place, number } = stop {
        let reason = reason(number);
        let _ = eprintln!(rt;
            "move_archive: the record at place {place} is turned away by {number}, {reason}"
        );
    }
}

// Moves the records of the file once, and writes them, if that is asked. How many there are; none where one is not
// moved, and why is said.
fn pass<R: Files + Print + Eprint + Alloc, T: AsSlice<u8> + Copy, F: Fn(&[u8]) -> (u32, T)>(
    rt: &R,
    path: &[u8],
    from: usize,
    moved: &F,
    write: bool,
) -> Option<u64>
    requires within { from ≤ 176 }
    requires moves { F.IsAlwaysCallable moved.now }
    ensures { IfSome result (λ records. records ≤ 72057594037927935) }
{
    let mut file = match host::open_read(rt, path) {
        Ok(file) => file,
        Err(error) => {
            host::fail(rt, path, error);
            return None;
        }
    };
    let found = run(rt, &mut file, from, moved, write);
    if !closed(rt, file, path) {
        return None;
    }
    match found {
        Ok(records) => Some(records),
        Err(stop) => {
            print_stop(rt, stop);
            None
        }
    }
}

// Moves the file's records from so many bytes each to so many, once all of them are looked at.
fn move_all<R: Files + Print + Eprint + Alloc, T: AsSlice<u8> + Copy, F: Fn(&[u8]) -> (u32, T)>(
    rt: &R,
    path: &[u8],
    from: usize,
    to: usize,
    moved: F,
)
    requires within { (from ≤ 176) × (to ≤ 176) }
    requires moves { F.IsAlwaysCallable moved }
{
    if pass(rt, path, from, &moved, false).is_none() {
        return;
    }
    if let Some(records) = pass(rt, path, from, &moved, true) {
        let before = records * from as u64;
        let after = records * to as u64;
        let _ = eprintln!(rt;
            "move_archive: {records} records, {before} bytes before, {after} after"
        );
    }
}

fn main(rt: HostRuntime) {
    let mut way = [0u8; 8];
    let mut path = host::buffer();
    let w = host::arg(&rt, 1, &mut way);
    let p = host::arg(&rt, 2, &mut path);
    let whole = host::arg_count(&rt) == 3;
    if whole && check::same(&way[..w], b"to") {
        move_all(&rt, &path[..p], 176, 152, |bytes| to_new(bytes));
    } else if whole && check::same(&way[..w], b"from") {
        move_all(&rt, &path[..p], 152, 176, |bytes| to_old(bytes));
    } else {
        host::say(
            &rt,
            "usage: move_archive to FILE, or move_archive from FILE\n",
        );
    }
}
