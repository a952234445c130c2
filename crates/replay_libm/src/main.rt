// Replays recorded results of the public fdlibm, so that a gate needs no other implementation at hand. Standard input
// holds records of four 64-bit words, little-endian: the function (0 sin, 1 cos, 2 atan2, 3 hypot), its arguments, and
// the result's bits. Sines and cosines are asked of `mlat_sincos` too. Prints how many were compared and how many
// differ; and how many were compared with a falsified result, and how many of those differ, which is to be all. All
// not-a-numbers count as one value.
#![tactic(auto)]

use cases::Compared;
use std::io;
use std::io::Read;

// What the function of a record gives.
fn result(function: u64, a: f64, b: f64) -> f64 {
    match function {
        0 => mlat_solver::mlat_sin(a),
        1 => mlat_solver::mlat_cos(a),
        2 => mlat_solver::mlat_atan2(a, b),
        _ => mlat_solver::mlat_hypot(a, b),
    }
}

// Whether the pair of sine and cosine has these bits at its place; it has no other result.
fn is_in_pair(function: u64, a: f64, bits: u64) -> bool {
    let mut pair = [0.0; 2];
    mlat_solver::mlat_sincos(a, &mut pair);
    match function {
        0 => is_result(pair[0], bits),
        1 => is_result(pair[1], bits),
        _ => true,
    }
}

// A result is falsified in the highest bit of its exponent: that changes every number, and a not-a-number into one.
const EXPONENT: u64 = 0x4000_0000_0000_0000;

// Whether these bits are those of the result.
fn is_result(res: f64, bits: u64) -> bool {
    binary64::to_bits(res) == binary64::to_bits(binary64::from_bits(bits))
}

fn tried(record: &[u8; 32]) -> Compared {
    let a = words::f64_at(record, 8);
    let b = words::f64_at(record, 16);
    let recorded = words::u64_at(record, 24);
    let function = words::u64_at(record, 0);
    let result = result(function, a, b);
    Compared {
        same: is_result(result, recorded) && is_in_pair(function, a, recorded),
        same_falsified: is_result(result, recorded ^ EXPONENT),
    }
}

fn next(input: &mut impl Read) -> Option<Compared> {
    let mut record = [0u8; 32];
    if cases::read(input, &mut record, 32) < 32 {
        return None;
    }
    Some(tried(&record))
}

fn main(rt: HostRuntime) -> io::Result<()> {
    let mut input = rt.stdin();
    cases::print(&rt, cases::replay(|_| next(&mut input)))
}
