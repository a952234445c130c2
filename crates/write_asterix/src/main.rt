// Writes the fixes of a file of records as items I020/041 and I020/105 of Eurocontrol's category 020, ten bytes a fix
// in the file's order, to standard output: document 02, item 13.
//
//     write_asterix FILE
//
// All or nothing: every record is looked at before the first item is written. The first that is torn or malformed is
// said on standard error with its place, from 0, and its number, and then nothing is written. Records that hold no fix
// or a position beyond the wire are passed over. How many records there are, how many were written and how many were
// passed over is said there at the end.
#![tactic(auto)]

ghost use Rattle.std.specs.Prelude.{◌≤◌, ◌≡◌, length};
ghost use Rattle.write_asterix.specs.Exports.{items_of_wire, items_of};

use refusals::Refusal;
use std::io::Read;
use std::rt::Files;
use wire::Wire;

// A proved loop has to end, and nothing says that a file does: no file has this many records.
const MOST: u64 = 0xff_ffff_ffff_ffff;

// Why a file is not gone through to its end: the record at this place is turned away with this number, or standard
// output does not take one, which is said.
#[derive(Clone, Copy, Debug, PartialEq, Eq)]
enum Stop {
    Refused { place: u64, number: u32 },
    Unwritten,
}

// How many records there are, and how many of them were passed over.
#[derive(Clone, Copy)]
struct Counts {
    records: u64,
    passed: u64,
    ghost within: { passed ≤ records },
}

// The items of a record, and its number: zeros where that is not 0.
#[derive(Clone, Copy)]
struct Items {
    refusal: u32,
    bytes: [u8; 10],
}

// Writes the items, if that is asked. Whether nothing fails; where it does, that is said.
fn shown<R: Print + Eprint + Alloc>(rt: &R, items: &[u8], asked: bool) -> bool {
    !asked || host::written(rt, rt.write_all(items), b"write_asterix: standard output")
}

// The wire's numbers as items.
fn exported(numbers: Wire) -> Items
    ensures { (result ≡ items_of_wire numbers) × (10 ≡ length result.bytes) }
{
    let mut items = [0u8; 10];
    let refusal = refusals::answer(asterix::to_asterix(numbers, &mut items));
    Items {
        refusal,
        bytes: items,
    }
}

// The position of a record as items.
fn items_of(bytes: &[u8]) -> Items
    ensures { (result ≡ items_of bytes.now) × (10 ≡ length result.bytes) }
{
    match wire::to_wire(bytes) {
        Ok(numbers) => exported(numbers),
        Err(why) => Items {
            refusal: why.number(),
            bytes: [0u8; 10],
        },
    }
}

// Whether this refusal of a record's items says only that it has none: no fix, or a position beyond the wire or them.
fn is_passed_over(number: u32) -> bool {
    number == Refusal::BeyondTheWire.number() || number == Refusal::BeyondTheItems.number()
}

// Writes the items of the next record of the file, which is at this place, if that is asked. Whether it is passed over,
// since it holds no fix or a position beyond the wire or the items; none where there is no record.
fn next<R: Print + Eprint + Alloc>(
    rt: &R,
    file: &mut impl Read,
    place: u64,
    write: bool,
) -> Result<Option<bool>, Stop> {
    let mut bytes = [0u8; 176];
    let n = host::read_full(file, &mut bytes);
    if n == 0 {
        return Ok(None);
    }
    let found = items_of(&bytes[..n]);
    match found.refusal {
        0 if shown(rt, &found.bytes, write) => Ok(Some(false)),
        0 => Err(Stop::Unwritten),
        number if is_passed_over(number) => Ok(Some(true)),
        number => Err(Stop::Refused { place, number }),
    }
}

// Goes through the records of the file up to its end, or to the first that is torn or malformed.
fn run<R: Print + Eprint + Alloc>(
    rt: &R,
    file: &mut impl Read,
    write: bool,
) -> Result<Counts, Stop> {
    let mut passed = 0;
    for records in 0..MOST {
        match next(rt, file, records, write)? {
            Some(over) => passed += over as u64,
            None => return Ok(Counts { records, passed }),
        }
    }
    Ok(Counts {
        records: MOST,
        passed,
    })
}

// Closes the file. Whether reading on in it does not fail; where it does, that is said.
fn closed<R: Eprint + Alloc>(rt: &R, mut file: impl Read + Drop, path: &[u8]) -> bool {
    host::sound(rt, &mut file, path)
}

fn reason(number: u32) -> &'static str {
    if number == Refusal::TornFile.number() {
        "torn file: it is not whole"
    } else {
        "malformed record: it breaks a rule that every fix record meets"
    }
}

// Says which record was turned away, if one was.
fn print_stop(rt: &impl Eprint, stop: Stop) {
    if let Stop::Refused { place, number } = stop {
        let reason = reason(number);
        let _ = eprintln!(rt;
            "write_asterix: the record at place {place} is turned away by {number}, {reason}"
        );
    }
}

fn print_counts(rt: &impl Eprint, counts: Counts) {
    let Counts { records, passed } = counts;
    let written = records - passed;
    let _ = eprintln!(rt;
        "write_asterix: {records} records, {written} written, {passed} passed over (no fix, or beyond the wire)"
    );
}

// Goes through the file once, and writes its items and says how many, if that is asked. Whether every record is sound.
fn pass<R: Files + Print + Eprint + Alloc>(rt: &R, path: &[u8], write: bool) -> bool {
    let mut file = match host::open_read(rt, path) {
        Ok(file) => file,
        Err(error) => {
            host::fail(rt, path, error);
            return false;
        }
    };
    let found = run(rt, &mut file, write);
    if !closed(rt, file, path) {
        return false;
    }
    match found {
        Ok(counts) => {
            if write {
                print_counts(rt, counts);
            }
            true
        }
        Err(stop) => {
            print_stop(rt, stop);
            false
        }
    }
}

fn main(rt: HostRuntime) {
    let mut path = host::buffer();
    let p = host::arg(&rt, 1, &mut path);
    if host::arg_count(&rt) != 2 {
        host::say(&rt, "usage: write_asterix FILE\n");
    } else if pass(&rt, &path[..p], false) {
        pass(&rt, &path[..p], true);
    }
}
