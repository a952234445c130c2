// Replays recorded moves of fix records to the archive's form and back with what an independent implementation answers:
// standard input holds them one after the other, in the form that RECORDING.md beside this program states. Prints how
// many were compared and how many differ, in the number or in any byte of the output; and how many were compared with a
// falsified answer, and how many of those differ, which is to be all: of move k byte k % 200 of its output is changed,
// or, past its end, the number.
#![tactic(auto)]

use cases::Compared;
use std::io;
use std::io::Read;

// Moves a record there or back, and gives the number.
fn moved(back: u8, bytes: &[u8], out: &mut [u8]) -> u32 {
    if back == 1 {
        return mlat_solver::mlat_from_archive(bytes, out);
    }
    mlat_solver::mlat_to_archive(bytes, out)
}

// The next move, which is move k.
fn next(input: &mut impl Read, k: u64) -> Option<Compared> {
    let mut head = [0u8; 8];
    if cases::read(input, &mut head, 8) < 8 {
        return None;
    }
    let mut bytes = [0u8; 1024];
    let mut out = [0xa5u8; 1024];
    let mut after = [0u8; 1024];
    let f = cases::read(input, &mut bytes, words::u16_at(&head, 2) as usize);
    let n = cases::read(input, &mut after, words::u16_at(&head, 4) as usize);
    let answer = moved(head[0], &bytes[..f], &mut out[..n]);
    Some(cases::twice(
        head[1],
        &mut after[..n],
        (k % 200) as usize,
        |number, after| answer == number as u32 && check::same(&out[..n], after),
    ))
}

fn main(rt: HostRuntime) -> io::Result<()> {
    let mut input = rt.stdin();
    cases::print(&rt, cases::replay(|k| next(&mut input, k)))
}
