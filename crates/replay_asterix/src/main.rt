// Replays recorded calls of the items with what an independent implementation answers: standard input holds them one
// after the other, in the form that RECORDING.md beside this program states. Prints how many were compared and how many
// differ, in the number or in any byte that is lent; and how many were compared with a falsified answer, and how many
// of those differ, which is to be all: of call k byte k % 16 of what it leaves is changed, or, past its end, the
// number.
#![tactic(auto)]

ghost use Rattle.std.specs.Prelude.{◌≡◌, length};

use cases::Compared;
use std::io;
use std::io::Read;

// Lent memory is filled with bytes A5 before a call, so that what is not written shows.
const FOUND: u8 = 0xa5;

const FOUND_I32: i32 = -0x5a5a_5a5b;

fn three(whole: &[u8]) -> [i32; 3]
    requires { length whole.now ≡ 12 }
{
    [
        words::i32_at(whole, 0),
        words::i32_at(whole, 4),
        words::i32_at(whole, 8),
    ]
}

// Exports the wire's numbers, or writes multiples.
fn called(export: bool, whole: &[u8; 12], out: &mut [u8]) -> u32 {
    let numbers = three(whole);
    if export {
        return mlat_solver::mlat_to_asterix(&numbers, out);
    }
    mlat_solver::mlat_write_asterix(&numbers, out)
}

// The next call, which is call k and writes to so many lent bytes.
fn written(input: &mut impl Read, export: bool, number: u8, length: usize, k: u64) -> Compared {
    let mut whole = [0u8; 12];
    let mut out = [FOUND; 16];
    let mut after = [0u8; 16];
    cases::read(input, &mut whole, 12);
    let n = cases::read(input, &mut after, length);
    let answer = called(export, &whole, &mut out[..n]);
    cases::twice(
        number,
        &mut after[..n],
        (k % 16) as usize,
        |number, after| answer == number as u32 && check::same(&out[..n], after),
    )
}

// The next call, which is call k and reads so many bytes.
fn read(input: &mut impl Read, number: u8, length: usize, k: u64) -> Compared {
    let mut bytes = [0u8; 16];
    let mut after = [0u8; 12];
    let mut multiples = [FOUND_I32; 3];
    let n = cases::read(input, &mut bytes, length);
    cases::read(input, &mut after, 12);
    let answer = mlat_solver::mlat_read_asterix(&bytes[..n], &mut multiples);
    cases::twice(
        number,
        &mut after,
        (k % 16) as usize,
        |number, after| answer == number as u32 && after.len() == 12 && multiples == three(after),
    )
}

// The next call, which is call k.
fn next(input: &mut impl Read, k: u64) -> Option<Compared> {
    let mut head = [0u8; 8];
    if cases::read(input, &mut head, 8) < 8 {
        return None;
    }
    let length = head[2] as usize;
    Some(match head[0] {
        0 => written(input, true, head[1], length, k),
        2 => read(input, head[1], length, k),
        _ => written(input, false, head[1], length, k),
    })
}

fn main(rt: HostRuntime) -> io::Result<()> {
    let mut input = rt.stdin();
    cases::print(&rt, cases::replay(|k| next(&mut input, k)))
}
