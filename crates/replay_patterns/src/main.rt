// Replays recorded counts of clash patterns with what an independent implementation answers: standard input holds them
// one after the other, in the form that RECORDING.md beside this program states. Prints how many were compared and how
// many differ, in the number or in any count; and how many were compared with a falsified answer, and how many of those
// differ, which is to be all: of call k byte k % 60 of what it answers and leaves is changed.
#![tactic(auto)]

use cases::Compared;
use std::io;
use std::io::Read;

// Lent counts before a call: bytes A5, so that what is not written shows.
const FOUND: u64 = 0xa5a5_a5a5_a5a5_a5a5;

// Whether a number and counts are the recorded ones.
fn alike(answer: u32, counts: &[u64; 7], recorded: &[u8; 64]) -> bool {
    answer == words::u32_at(recorded, 4)
        && (0..7).all(|i| counts[i] == words::u64_at(recorded, 8 + 8 * i))
}

// The next recorded call, which is call k. To falsify it, a byte of what it is to answer or to leave is changed.
fn next(input: &mut impl Read, k: u64) -> Option<Compared> {
    let mut recorded = [0u8; 64];
    if cases::read(input, &mut recorded, 64) < 64 {
        return None;
    }
    let mut counts = [FOUND; 7];
    let receptions = words::u32_at(&recorded, 0);
    let answer = mlat_solver::mlat_clash_patterns(receptions, &mut counts);
    let same = alike(answer, &counts, &recorded);
    recorded[4 + (k % 60) as usize] ^= 1;
    let same_falsified = alike(answer, &counts, &recorded);
    Some(Compared {
        same,
        same_falsified,
    })
}

fn main(rt: HostRuntime) -> io::Result<()> {
    let mut input = rt.stdin();
    cases::print(&rt, cases::replay(|k| next(&mut input, k)))
}
