// Replays recorded calls of the reader with what an independent reader answers: standard input holds them one after
// the other, in the form that RECORDING.md beside this program states. Prints how many were compared and how many
// differ, in the number or in any byte that is lent; and how many were compared with a falsified answer, and how
// many of those differ, which is to be all: of call k byte k % 200 of what it leaves is changed, or, past its end,
// the number.
#![tactic(auto)]

use cases::Compared;
use std::io;
use std::io::Read;

// Lent memory is filled with bytes A5 before a call, so that what is not written shows.
const FOUND_U32: u32 = 0xa5a5_a5a5;

const FOUND_U64: u64 = 0xa5a5_a5a5_a5a5_a5a5;

const FOUND_I64: i64 = -0x5a5a_5a5a_5a5a_5a5b;

// The next call, which is call k, for a place: the offset is left and the part, where there is one.
fn placed(input: &mut impl Read, number: u8, length: usize, parts: u8, k: u64) -> Compared {
    let mut place = [0u8; 8];
    let mut file = [0u8; 1024];
    let mut after = [0u8; 184];
    let mut at = FOUND_U64;
    cases::read(input, &mut place, 8);
    let f = cases::read(input, &mut file, length);
    let n = cases::read(input, &mut after, if parts == 0 { 8 } else { 184 });
    let place = words::u64_at(&place, 0);
    let answer = mlat_solver::mlat_record_at(&file[..f], place, &mut at);
    let part = reader::record_at(&file[..f], place);
    cases::twice(
        number,
        &mut after[..n],
        (k % 200) as usize,
        |number, after| answer == number as u32
            && after.len() >= 8
            && at == words::u64_at(after, 0)
            && check::same(part, &after[8..]),
    )
}

// The words, and the numbers, of a value: words, numbers and transmit time, one after the other.
fn words_of(value: &[u8; 176]) -> [u32; 6] {
    let mut w = [0; 6];
    for i in 0..6 {
        w[i] = words::u32_at(value, 4 * i);
    }
    w
}

fn numbers_of(value: &[u8; 176]) -> [f64; 18] {
    let mut numbers = [0.0; 18];
    for i in 0..18 {
        numbers[i] = words::f64_at(value, 24 + 8 * i);
    }
    numbers
}

// Whether a value is made of these.
fn is_of(w: &[u32; 6], numbers: &[f64; 18], time: i64, value: &[u8]) -> bool {
    value.len() == 176
        && (0..6).all(|i| w[i] == words::u32_at(value, 4 * i))
        && (0..18).all(|i| binary64::to_bits(numbers[i]) == words::u64_at(value, 24 + 8 * i))
        && time == words::i64_at(value, 168)
}

// The next call, which is call k and reads a record.
fn read(input: &mut impl Read, number: u8, length: usize, k: u64) -> Compared {
    let mut bytes = [0u8; 1024];
    let mut value = [0u8; 176];
    let mut w = [FOUND_U32; 6];
    let mut numbers = [binary64::from_bits(FOUND_U64); 18];
    let mut time = FOUND_I64;
    let f = cases::read(input, &mut bytes, length);
    let n = cases::read(input, &mut value, 176);
    let answer = mlat_solver::mlat_read_record(&bytes[..f], &mut w, &mut numbers, &mut time);
    cases::twice(
        number,
        &mut value[..n],
        (k % 200) as usize,
        |number, value| answer == number as u32 && is_of(&w, &numbers, time, value),
    )
}

// The next call, which is call k and writes a record.
fn written(input: &mut impl Read, number: u8, length: usize, k: u64) -> Compared {
    let mut value = [0u8; 176];
    let mut out = [0xa5u8; 1024];
    let mut after = [0u8; 1024];
    cases::read(input, &mut value, 176);
    let n = cases::read(input, &mut after, length);
    let time = words::i64_at(&value, 168);
    let answer = mlat_solver::mlat_write_record(
        &words_of(&value),
        &numbers_of(&value),
        time,
        &mut out[..n],
    );
    cases::twice(
        number,
        &mut after[..n],
        (k % 200) as usize,
        |number, after| answer == number as u32 && check::same(&out[..n], after),
    )
}

// The next call, which is call k.
fn next(input: &mut impl Read, k: u64) -> Option<Compared> {
    let mut head = [0u8; 8];
    if cases::read(input, &mut head, 8) < 8 {
        return None;
    }
    let length = words::u16_at(&head, 4) as usize;
    Some(match head[0] {
        0 => placed(input, head[1], length, head[2], k),
        1 => read(input, head[1], length, k),
        _ => written(input, head[1], length, k),
    })
}

fn main(rt: HostRuntime) -> io::Result<()> {
    let mut input = rt.stdin();
    cases::print(&rt, cases::replay(|k| next(&mut input, k)))
}
