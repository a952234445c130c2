// Replays recorded searches of files of fix records, those within a radius and the nearest, with what an independent
// implementation answers: standard input holds them one after the other, in the form that RECORDING.md beside this
// program states. Prints how many were compared and how many differ, in the number, in the count or place, or in any
// entry of the lent buffer; and how many were compared with a falsified answer, and how many of those differ, which is
// to be all: of search k byte k % 24 of the count or place and of the entries is changed, or, past their end, the
// number.
#![tactic(auto)]

use cases::Compared;
use std::io;
use std::io::Read;

// The number of a search, and the count or place that it leaves.
#[derive(Clone, Copy)]
struct Answer {
    number: u32,
    out: u64,
}

// What the lent entries and the lent number hold before a call.
const FOUND: u64 = 0xa5a5_a5a5_a5a5_a5a5;

// The most entries that a recorded search lends.
const ENTRIES: usize = 128;

// Searches a file, for the nearest or for those within the radius.
fn searched(nearest: u8, file: &[u8], query: &[u8; 32], places: &mut [u64]) -> Answer {
    let x = words::f64_at(query, 0);
    let y = words::f64_at(query, 8);
    let z = words::f64_at(query, 16);
    let radius = words::f64_at(query, 24);
    let point = [x, y, z];
    let mut out = FOUND;
    if nearest == 1 {
        let number = mlat_solver::mlat_nearest(file, &point, &mut out);
        return Answer { number, out };
    }
    let number = mlat_solver::mlat_within(file, &point, radius, places, &mut out);
    Answer { number, out }
}

// Whether the u64 at place i of the bytes, from 0, is this one.
fn holds(bytes: &[u8], i: usize, value: u64) -> bool {
    i < bytes.len() / 8 && words::u64_at(bytes, 8 * i) == value
}

// Whether an answer and the entries are these: the count or place stands before the entries in `after`.
fn alike(answer: Answer, places: &[u64], number: u8, after: &[u8]) -> bool {
    answer.number == number as u32
        && holds(after, 0, answer.out)
        && (0..places.len()).all(|i| holds(after, i + 1, places[i]))
}

// The case of this head, which is case k, compared. (A function of its own: after a return its arrays would be filled
// twice.)
fn tried(input: &mut impl Read, head: &[u8; 8], k: u64) -> Compared {
    let mut file = [0u8; 16384];
    let mut query = [0u8; 32];
    let mut places = [FOUND; ENTRIES];
    let mut after = [0u8; 1032];
    let f = cases::read(input, &mut file, words::u16_at(head, 2) as usize);
    let n = ENTRIES.min(words::u16_at(head, 4) as usize);
    cases::read(input, &mut query, 32);
    let a = cases::read(input, &mut after, 8 + 8 * n);
    let answer = searched(head[0], &file[..f], &query, &mut places[..n]);
    cases::twice(
        head[1],
        &mut after[..a],
        (k % 24) as usize,
        |number, after| alike(answer, &places[..n], number, after),
    )
}

// The next search, which is search k.
fn next(input: &mut impl Read, k: u64) -> Option<Compared> {
    let mut head = [0u8; 8];
    if cases::read(input, &mut head, 8) < 8 {
        return None;
    }
    Some(tried(input, &head, k))
}

fn main(rt: HostRuntime) -> io::Result<()> {
    let mut input = rt.stdin();
    cases::print(&rt, cases::replay(|k| next(&mut input, k)))
}
