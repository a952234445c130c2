// Reading, arguments and messages over std: what the programs share. A program passes the runtime on by these bounds.
#![tactic(auto)]

ghost use Rattle.std.specs.Prelude.{◌≡◌, length};
ghost use Rattle.io.specs.Counts.{IsPrefixLen};

use std::env::{Env, FillError};
use std::fmt::Display;
use std::io::Read;
use std::rt::Files;
use std::{fs, io};

// 4,096 zeros, which hold any path.
pub fn buffer() -> [u8; 4096]
    ensures { 4096 ≡ length result }
{
    [0; 4096]
}

// Reads until buf is full, the input ends or a read fails, and returns how many bytes it put at the start of buf. On
// an empty buf it makes no call.
pub fn read_full(from: &mut impl Read, buf: &mut [u8]) -> usize
    ensures { IsPrefixLen result buf.new }
{
    let mut done = 0;
    while done < buf.len() {
        match from.read(&mut buf[done..]) {
            Ok(0) | Err(_) => break,
            Ok(n) => done += n,
        }
    }
    done
}

// Whether reading on does not fail; where it does, that is said of `what`.
pub fn sound<R: Eprint + Alloc>(rt: &R, from: &mut impl Read, what: &[u8]) -> bool {
    let mut byte = [0u8; 1];
    let read = from.read(&mut byte);
    match read {
        Ok(_) => true,
        Err(error) => {
            fail(rt, what, error);
            false
        }
    }
}

// Whether a write did not fail; where it did, that is said of `what`.
pub fn written<R: Eprint + Alloc>(rt: &R, write: io::Result<()>, what: &[u8]) -> bool {
    match write {
        Ok(()) => true,
        Err(error) => {
            fail(rt, what, error);
            false
        }
    }
}

// Opens the file at this path for reading. A path is UTF-8.
pub fn open_read<R: Files>(rt: &R, path: &[u8]) -> io::Result<R::File> {
    match std::str::from_utf8(path) {
        Ok(path) => fs::open(rt, path),
        Err(_) => Err(io::Error::new(io::ErrorKind::InvalidInput, "file name is not UTF-8")),
    }
}

// Puts argument i at the start of buf and returns its length, or 0 where it is missing or longer than buf.
pub fn arg(rt: &impl Env, i: usize, buf: &mut [u8]) -> usize
    ensures { IsPrefixLen result buf.new }
{
    rt.arg(i, buf).unwrap_or(0)
}

// How many arguments there are, with the program's name.
pub fn arg_count(rt: &impl Env) -> usize {
    for i in 0..usize::MAX {
        if let Err(FillError::NotPresent) = rt.arg(i, &mut []) {
            return i;
        }
    }
    usize::MAX
}

// Writes to standard error. Where that fails, nobody can be told.
pub fn say(rt: &impl Eprint, words: impl Display + Drop) {
    let _ = rt.eprint(words);
}

// Writes a line to standard error: what failed, as the caller names it, a colon and why.
pub fn fail<R: Eprint + Alloc>(rt: &R, what: &[u8], error: io::Error) {
    let _ = try_fail(rt, what, error);
}

// Likewise. An error of the system is without its number.
fn try_fail<R: Eprint + Alloc>(rt: &R, what: &[u8], error: io::Error) -> io::Result<()> {
    let what = String::from_utf8_lossy(rt.alloc(), what)?;
    let text = format!(in rt.alloc(); "{error}")?;
    match text.split_once(" (os error ") {
        Some((reason, _)) => eprintln!(rt; "{what}: {reason}"),
        None => eprintln!(rt; "{what}: {text}"),
    }
}
