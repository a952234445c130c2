// Replays recorded calls of roots, rounding, geodesy and the claims of a fix: standard input holds them one after the
// other, in the form that RECORDING.md beside this program states. Prints how many were compared and how many differ,
// in any bit of a result; how many were compared with a falsified result, and how many of those differ, which is to be
// all: the last bit of the first result is changed; and the library's version. All not-a-numbers count as one value.
#![tactic(auto)]

ghost use Rattle.std.specs.Prelude.{◌+◌, ◌*◌, ◌≤◌};

use cases::{Compared, Tally};
use std::io;
use std::io::Read;

// What the memory of the results holds before a call.
const FOUND: f64 = -8.125e77;

// Three numbers from number k on.
fn three_at(call: &[u8; 176], k: usize) -> [f64; 3]
    requires { k ≤ 9 }
{
    let at = 8 + 8 * k;
    [
        words::f64_at(call, at),
        words::f64_at(call, at + 8),
        words::f64_at(call, at + 16),
    ]
}

// The whole numbers that stand first.
fn wholes(call: &[u8; 176]) -> [i64; 3] {
    [
        words::i64_at(call, 8),
        words::i64_at(call, 16),
        words::i64_at(call, 24),
    ]
}

// The nine numbers from number 3 on.
fn nine(call: &[u8; 176]) -> [f64; 9] {
    let a = three_at(call, 3);
    let b = three_at(call, 6);
    let c = three_at(call, 9);
    [a[0], a[1], a[2], b[0], b[1], b[2], c[0], c[1], c[2]]
}

// A result of one number, and of three: zeros past them.
fn one(x: f64) -> [f64; 9] {
    [x, 0.0, 0.0, 0.0, 0.0, 0.0, 0.0, 0.0, 0.0]
}

fn three(x: [f64; 3]) -> [f64; 9] {
    [x[0], x[1], x[2], 0.0, 0.0, 0.0, 0.0, 0.0, 0.0]
}

fn bits(x: [f64; 9]) -> [u64; 9] {
    x.map(binary64::to_bits)
}

// The millimetres of a place, as the words that hold them.
fn millimetres(place: [f64; 3]) -> [u64; 9] {
    let mut mm = [-1i64; 3];
    mlat_solver::mlat_to_mm(&place, &mut mm);
    let [x, y, z] = mm.map(|n| n.cast_unsigned());
    [x, y, z, 0, 0, 0, 0, 0, 0]
}

// What a place is in other terms.
fn placed(function: u8, place: [f64; 3], mm: [i64; 3]) -> [f64; 9] {
    let mut out = [FOUND; 3];
    match function {
        3 => mlat_solver::mlat_to_ecef(&place, &mut out),
        4 => mlat_solver::mlat_from_ecef(&place, &mut out),
        _ => mlat_solver::mlat_from_mm(&mm, &mut out),
    }
    three(out)
}

// What is told of a place and a covariance.
fn claimed(function: u8, place: [f64; 3], covariance: [f64; 9]) -> [f64; 9] {
    let mut out = [FOUND; 9];
    match function {
        6 => mlat_solver::mlat_enu_basis(place[0], place[1], &mut out),
        7 => mlat_solver::mlat_enu_covariance(&place, &covariance, &mut out),
        _ => return one(mlat_solver::mlat_horizontal_sigma_m(&place, &covariance)),
    }
    out
}

fn limit(call: &[u8; 176]) -> f64 {
    mlat_solver::mlat_chi2_limit(words::u32_at(call, 8))
}

// The results of a call.
fn results(call: &[u8; 176]) -> [u64; 9] {
    let function = call[0];
    let place = three_at(call, 0);
    match function {
        0 => bits(one(mlat_solver::mlat_sqrt(place[0]))),
        1 => bits(one(mlat_solver::mlat_round(place[0]))),
        2 => millimetres(place),
        3..=5 => bits(placed(function, place, wholes(call))),
        6..=8 => bits(claimed(function, place, nine(call))),
        _ => bits(one(limit(call))),
    }
}

// Whether these are the recorded results, the first of them but for `change`.
fn alike(found: &[u64; 9], call: &[u8; 176], change: u64) -> bool {
    (1..9).all(|k| found[k] == words::u64_at(call, 104 + 8 * k))
        && found[0] ^ change == words::u64_at(call, 104)
}

fn tried(call: &[u8; 176]) -> Compared {
    let found = results(call);
    Compared {
        same: alike(&found, call, 0),
        same_falsified: alike(&found, call, 1),
    }
}

fn next(input: &mut impl Read) -> Option<Compared> {
    let mut call = [0u8; 176];
    if cases::read(input, &mut call, 176) < 176 {
        return None;
    }
    Some(tried(&call))
}

fn print(rt: &impl Print, tally: Tally) -> io::Result<()> {
    let compared = tally.compared;
    let differ = tally.differ;
    let falsified = tally.differ_falsified;
    let version = mlat_solver::mlat_version();
    println!(rt;
        "{compared} compared, {differ} differ; {compared} falsified, {falsified} differ; version {version}"
    )
}

fn main(rt: HostRuntime) -> io::Result<()> {
    let mut input = rt.stdin();
    print(&rt, cases::replay(|_| next(&mut input)))
}
