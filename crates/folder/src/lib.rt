// The four files of a problem, read from a folder, for the programs that take them. A file that is absent is an absent
// input. One that is there and cannot be read is said on standard error, and so is a folder that cannot be opened.
//
// A file that is too long is cut to a length that gets the same answer (crates/entry/specs/Cut.antt).
// For clock.bin, altitude.bin and reference.bin that is one byte more than the longest that is taken. Of
// receptions.bin 4,356 bytes, one reception too many, stand for every longer whole number of receptions,
// and 4,355 for every torn one.
#![tactic(auto)]

ghost use Rattle.std.specs.Prelude.{◌≤◌, cond, ◌≡◌, Ok, Some, None, IfOk, IfSome};
ghost use Rattle.io.specs.Counts.{IsPrefixLen};
ghost use Rattle.entry.specs.Cut.{taken, present_bits};

use arrayvec::ArrayVec;
use std::io::{ErrorKind, Read};
use std::rt::Files;

// The bytes of 33 receptions.
pub const ONE_TOO_MANY: usize = 33 * receptions::RECEPTION_BYTES;

// Room for the path of a file: a folder of 4,096 bytes, a slash and a name of 15. What is cut there has over 4,095
// bytes, and is no path.
const ROOM: usize = 4112;

// How many bytes are read on at a time.
const BLOCK: usize = 4096;

// That a file is there and cannot be read, or that the folder cannot be opened: it is said on standard error.
#[derive(Clone, Copy, Debug, PartialEq, Eq)]
pub struct Unreadable;

// The path of the folder's file of this name, up to what there is room for.
fn joined(folder: &[u8], name: &[u8]) -> ArrayVec<u8, ROOM> {
    let mut path = ArrayVec::new();
    for byte in folder.iter().chain(b"/").chain(name) {
        if path.try_push(*byte).is_err() {
            break;
        }
    }
    path
}

// The file, or none where it is absent.
fn opened<R: Files + Eprint + Alloc>(rt: &R, path: &[u8]) -> Result<Option<R::File>, Unreadable> {
    match host::open_read(rt, path) {
        Ok(file) => Ok(Some(file)),
        Err(error) => {
            if error.kind() == ErrorKind::NotFound {
                return Ok(None);
            }
            host::fail(rt, path, error);
            Err(Unreadable)
        }
    }
}

// Closes the file. How many bytes were taken of it, if reading on in it does not fail; where it does, that is said.
fn closed<R: Eprint + Alloc>(
    rt: &R,
    mut file: impl Read + Drop,
    path: &[u8],
    n: usize,
) -> Result<Option<usize>, Unreadable>
    ensures { IfOk result (λ part. part ≡ Some n) }
{
    if host::sound(rt, &mut file, path) {
        Ok(Some(n))
    } else {
        Err(Unreadable)
    }
}

// What is taken of a file that is absent: nothing.
fn absent() -> Result<Option<usize>, Unreadable>
    ensures { result ≡ Ok None }
{
    Ok(None)
}

// Whether the folder can be opened. Where it cannot, that is said.
fn there<R: Files + Eprint + Alloc>(rt: &R, folder: &[u8]) -> bool {
    match host::open_read(rt, joined(folder, b".").as_slice()) {
        Ok(_) => true,
        Err(error) => {
            host::fail(rt, folder, error);
            false
        }
    }
}

// Reads the file at this path to the start of `buf`, as much of it as there is room for. How many bytes there are; none
// where it is absent.
fn read_at<R: Files + Eprint + Alloc>(
    rt: &R,
    path: &[u8],
    buf: &mut [u8],
) -> Result<Option<usize>, Unreadable>
    ensures { IfOk result (λ part. IfSome part (λ n. IsPrefixLen n buf.new)) }
{
    let Some(mut file) = opened(rt, path)? else {
        return absent();
    };
    let n = host::read_full(&mut file, buf);
    closed(rt, file, path, n)
}

// Reads the folder's file of this name likewise.
pub fn read_file<R: Files + Eprint + Alloc>(
    rt: &R,
    folder: &[u8],
    name: &[u8],
    buf: &mut [u8],
) -> Result<Option<usize>, Unreadable>
    ensures { IfOk result (λ part. IfSome part (λ n. IsPrefixLen n buf.new)) }
{
    read_at(rt, joined(folder, name).as_slice(), buf)
}

// Reads on, by a block or up to the end.
fn some_more(file: &mut impl Read) -> usize
    ensures { result ≤ 4096 }
{
    let mut buf = [0u8; BLOCK];
    host::read_full(file, &mut buf)
}

// Whether what is left of the file is a whole number of receptions. A block is none, so the bytes that are over are
// carried to the next. Nothing says that a file ends, so the turns are counted.
fn rest_is_whole(file: &mut impl Read) -> bool {
    let mut over = 0usize;
    for _ in 0..u64::MAX {
        let n = some_more(file);
        over = (over + n) % receptions::RECEPTION_BYTES;
        if n < BLOCK {
            return over == 0;
        }
    }
    true
}

// How many of the n bytes that were read of receptions.bin stand for all of it. Where they fill the buffer, it
// matters whether what follows them is a whole number of receptions.
fn taken(n: usize, whole: bool) -> usize
    ensures { (result ≡ taken n whole) × (result ≤ n) }
{
    if n < ONE_TOO_MANY || whole {
        return n;
    }
    n - 1
}

// Reads the receptions at this path, of which `buf` has room for ONE_TOO_MANY bytes.
fn receptions_at<R: Files + Eprint + Alloc>(
    rt: &R,
    path: &[u8],
    buf: &mut [u8],
) -> Result<Option<usize>, Unreadable>
    ensures { IfOk result (λ part. IfSome part (λ n. IsPrefixLen n buf.new)) }
{
    let Some(mut file) = opened(rt, path)? else {
        return absent();
    };
    let n = host::read_full(&mut file, buf);
    let whole = rest_is_whole(&mut file);
    closed(rt, file, path, taken(n, whole))
}

// Reads the folder's receptions.bin likewise. They are not read either where the folder cannot be opened.
pub fn read_receptions<R: Files + Eprint + Alloc>(
    rt: &R,
    folder: &[u8],
    buf: &mut [u8],
) -> Result<Option<usize>, Unreadable>
    ensures { IfOk result (λ part. IfSome part (λ n. IsPrefixLen n buf.new)) }
{
    if !there(rt, folder) {
        return Err(Unreadable);
    }
    receptions_at(rt, joined(folder, b"receptions.bin").as_slice(), buf)
}

// The bit of an input that is there.
fn bit(there: bool, value: u32) -> u32
    ensures { (result ≡ cond there value 0) × (result ≤ value) }
{
    if there {
        return value;
    }
    0
}

// The bits of the inputs that are there.
pub fn present(clock: bool, altitude: bool, reference: bool) -> u32
    ensures { result ≡ present_bits clock altitude reference }
{
    bit(clock, 1) + bit(altitude, 2) + bit(reference, 4)
}
