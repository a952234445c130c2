// Replays recorded calls of the wire with what an independent implementation answers: standard input holds them one
// after the other, in the form that RECORDING.md beside this program states. Prints how many were compared and how many
// differ, in the number or in any byte that is lent; and how many were compared with a falsified answer, and how many
// of those differ, which is to be all: of call k byte k % 32 of what it leaves is changed, or, past its end, the
// number.
#![tactic(auto)]

use cases::Compared;
use std::io;
use std::io::Read;

// Lent memory is filled with bytes A5 before a call, so that what is not written shows.
const FOUND_I32: i32 = -0x5a5a_5a5b;

const FOUND_U64: u64 = 0xa5a5_a5a5_a5a5_a5a5;

// Whether these are the whole numbers that stand in `after`, and whether this is the position.
fn are_numbers(numbers: &[i32; 3], after: &[u8]) -> bool {
    after.len() == 12 && (0..3).all(|i| numbers[i] == words::i32_at(after, 4 * i))
}

fn is_position(position: &[f64; 3], after: &[u8]) -> bool {
    after.len() == 24
        && (0..3).all(|i| binary64::to_bits(position[i]) == words::u64_at(after, 8 * i))
}

// The next call, which is call k and writes the position of a record to three whole numbers.
fn written(input: &mut impl Read, number: u8, length: usize, k: u64) -> Compared {
    let mut bytes = [0u8; 1024];
    let mut after = [0u8; 12];
    let mut numbers = [FOUND_I32; 3];
    let f = cases::read(input, &mut bytes, length);
    let n = cases::read(input, &mut after, 12);
    let answer = mlat_solver::mlat_to_wire(&bytes[..f], &mut numbers);
    cases::twice(
        number,
        &mut after[..n],
        (k % 32) as usize,
        |number, after| answer == number as u32 && are_numbers(&numbers, after),
    )
}

// The next call, which is call k and reads whole numbers back to a position.
fn placed(input: &mut impl Read, number: u8, k: u64) -> Compared {
    let mut whole = [0u8; 12];
    let mut after = [0u8; 24];
    let mut position = [binary64::from_bits(FOUND_U64); 3];
    cases::read(input, &mut whole, 12);
    let n = cases::read(input, &mut after, 24);
    let numbers = [
        words::i32_at(&whole, 0),
        words::i32_at(&whole, 4),
        words::i32_at(&whole, 8),
    ];
    let answer = mlat_solver::mlat_from_wire(&numbers, &mut position);
    cases::twice(
        number,
        &mut after[..n],
        (k % 32) as usize,
        |number, after| answer == number as u32 && is_position(&position, after),
    )
}

// The next call, which is call k.
fn next(input: &mut impl Read, k: u64) -> Option<Compared> {
    let mut head = [0u8; 8];
    if cases::read(input, &mut head, 8) < 8 {
        return None;
    }
    Some(if head[0] == 0 {
        written(input, head[1], words::u16_at(&head, 4) as usize, k)
    } else {
        placed(input, head[1], k)
    })
}

fn main(rt: HostRuntime) -> io::Result<()> {
    let mut input = rt.stdin();
    cases::print(&rt, cases::replay(|k| next(&mut input, k)))
}
