// Replays recorded calculations with matrices with what the original linalg.rs gives: standard input holds them one
// after the other, in the form that RECORDING.md beside this program states. Prints how many were compared and how many
// differ, in the number or in any entry of the output; and how many were compared with a falsified answer, and how many
// of those differ, which is to be all: of call k byte k % 64 of what it leaves is changed, or, past its end, the
// number.
#![tactic(auto)]

use cases::Compared;
use std::io;
use std::io::Read;

// The output holds bytes A5 before a call, so that what is not written shows.
const FOUND: u64 = 0xa5a5_a5a5_a5a5_a5a5;

// The numbers that stand in the bytes, eight each.
fn numbers(bytes: &[u8; 8192]) -> [f64; 1024] {
    let mut values = [0.0; 1024];
    for k in 0..1024 {
        values[k] = binary64::from_bits(words::u64_at(bytes, 8 * k));
    }
    values
}

// Whether values have the bits that stand in the bytes.
fn alike(values: &[f64], bytes: &[u8]) -> bool {
    bytes.len() / 8 == values.len()
        && (0..values.len()).all(|i| binary64::to_bits(values[i]) == words::u64_at(bytes, 8 * i))
}

// The call of this number.
fn called(call: u8, n: usize, width: usize, first: &[f64], second: &[f64], out: &mut [f64]) -> u32 {
    match call {
        0 => mlat_solver::mlat_sandwich(n, first, second, out),
        1 => mlat_solver::mlat_forward_rows(n, width, first, second, out),
        2 => mlat_solver::mlat_inverse_triangular(n, first, out),
        3 => mlat_solver::mlat_inverse_diagonal(n, first, out),
        _ => mlat_solver::mlat_cholesky(n, first, out),
    }
}

// The next numbers, of which there are so many.
fn taken(input: &mut impl Read, count: usize) -> [u8; 8192] {
    let mut bytes = [0u8; 8192];
    if count <= 1024 {
        cases::read(input, &mut bytes, 8 * count);
    }
    bytes
}

// No recorded call has more than 1024 numbers in a part; such a call counts as one that differs.
const DIFFERS: Compared = Compared {
    same: false,
    same_falsified: true,
};

// The call on these parts of the recorded numbers, with an output of its own.
fn on_parts(
    input: &mut impl Read,
    head: &[u8; 16],
    first: &[f64],
    second: &[f64],
    k: u64,
) -> Compared {
    let count = words::u16_at(head, 8) as usize;
    let mut after = taken(input, count);
    let mut out = [binary64::from_bits(FOUND); 1024];
    if count > 1024 {
        return DIFFERS;
    }
    let n = head[2] as usize;
    let width = head[3] as usize;
    let answer = called(head[0], n, width, first, second, &mut out[..count]);
    cases::twice(
        head[1],
        &mut after[..8 * count],
        (k % 64) as usize,
        |number, after| answer == number as u32 && alike(&out[..count], after),
    )
}

// The next call, which is call k.
fn next(input: &mut impl Read, k: u64) -> Option<Compared> {
    let mut head = [0u8; 16];
    if cases::read(input, &mut head, 16) < 16 {
        return None;
    }
    let f = words::u16_at(&head, 4) as usize;
    let first = numbers(&taken(input, f));
    if f > 1024 {
        return Some(DIFFERS);
    }
    let s = words::u16_at(&head, 6) as usize;
    let second = numbers(&taken(input, s));
    if s > 1024 {
        return Some(DIFFERS);
    }
    Some(on_parts(input, &head, &first[..f], &second[..s], k))
}

fn main(rt: HostRuntime) -> io::Result<()> {
    let mut input = rt.stdin();
    cases::print(&rt, cases::replay(|k| next(&mut input, k)))
}
