// Reads cases of the solve's inputs, and compares what `inputs` answers with what documents 01 and 02 say,
// written beside each case by tools/input_cases. A case on standard input is eight words and the
// bytes of the files: the four lengths (receptions, clock, altitude, reference; 2^64 - 1 for a file
// that is absent), then number and detail of the refusal, or 0 and 0 and the number of receptions.
// Prints how many cases were compared and how many differ; and how many were compared with a falsified
// answer, and how many of those differ, which is to be all: case k has its number, detail or number of
// receptions changed, in turn.
#![tactic(auto)]

ghost use Rattle.std.specs.Prelude.{◌*◌, ◌≤◌, length, ◌≡◌};
ghost use Rattle.receptions.specs.Receptions.{reception_bytes, reception_at, fields_of};

use cases::Compared;
use inputs::{Fault, Given};
use receptions::Fields;
use std::io;
use std::io::Read;

const ABSENT: u64 = 0xffff_ffff_ffff_ffff;

// The length of a file that is there; an absent one has no bytes.
fn length_of(word: u64) -> usize {
    if word == ABSENT {
        return 0;
    }
    word as usize
}

// Which of the files that may be absent are there.
fn given(header: &[u8; 64]) -> Given {
    Given {
        clock: words::u64_at(header, 8) != ABSENT,
        altitude: words::u64_at(header, 16) != ABSENT,
        reference: words::u64_at(header, 24) != ABSENT,
    }
}

// n receptions by field, where they are no more than 32.
fn unpacked(bytes: &[u8], n: usize) -> Fields
    requires { reception_bytes * n ≤ length bytes.now }
    ensures { n ≤ 32 → result ≡ fields_of (reception_at bytes.now) n }
{
    if n <= 32 {
        return receptions::of_bytes(bytes, n);
    }
    receptions::of_bytes(bytes, 0)
}

// An answer: number and detail of a refusal and 0, or 0, 0 and the number of receptions of a problem.
#[derive(Clone, Copy)]
struct Outcome {
    number: u64,
    detail: u64,
    n: u64,
}

fn refusal(fault: Fault) -> Outcome {
    Outcome {
        number: fault.number() as u64,
        detail: fault.detail() as u64,
        n: 0,
    }
}

fn problem(n: usize) -> Outcome {
    Outcome {
        number: 0,
        detail: 0,
        n: n as u64,
    }
}

// What the inputs are answered.
fn answered(
    receptions: &[u8],
    g: Given,
    clock: &[u8],
    altitude: &[u8],
    reference: &[u8],
) -> Outcome {
    let n = receptions.len() / receptions::RECEPTION_BYTES;
    let whole = receptions.len() % receptions::RECEPTION_BYTES == 0;
    let f = unpacked(receptions, n);
    match inputs::check_inputs(f, whole, n, g, clock, altitude, reference) {
        Err(fault) => refusal(fault),
        Ok(()) => {
            let made = inputs::problem_of(f, n, g, clock, altitude, reference);
            problem(made.n)
        }
    }
}

// Whether the header has this answer.
fn expects(header: &[u8; 64], a: Outcome) -> bool {
    words::u64_at(header, 32) == a.number
        && words::u64_at(header, 40) == a.detail
        && words::u64_at(header, 48) == a.n
}

// The header of case k with one word of its answer changed.
fn falsified(header: &[u8; 64], k: u64) -> [u8; 64] {
    let mut other = *header;
    let place = 32 + 8 * (k % 3) as usize;
    other[place] ^= 1;
    other
}

// The case of this header, which is case k and whose files come next, compared. (A function of its own: after a return
// its arrays would be filled twice.)
fn tried(input: &mut impl Read, header: &[u8; 64], k: u64) -> Compared {
    let mut receptions = [0u8; 8200];
    let mut clock = [0u8; 8200];
    let mut altitude = [0u8; 8200];
    let mut reference = [0u8; 8200];
    let a = cases::read(input, &mut receptions, length_of(words::u64_at(header, 0)));
    let b = cases::read(input, &mut clock, length_of(words::u64_at(header, 8)));
    let c = cases::read(input, &mut altitude, length_of(words::u64_at(header, 16)));
    let d = cases::read(input, &mut reference, length_of(words::u64_at(header, 24)));
    let got = answered(
        &receptions[..a],
        given(header),
        &clock[..b],
        &altitude[..c],
        &reference[..d],
    );
    let other = falsified(header, k);
    Compared {
        same: expects(header, got),
        same_falsified: expects(&other, got),
    }
}

// The next case, which is case k: its header, and its files.
fn next(input: &mut impl Read, k: u64) -> Option<Compared> {
    let mut header = [0u8; 64];
    if cases::read(input, &mut header, 64) < 64 {
        return None;
    }
    Some(tried(input, &header, k))
}

fn main(rt: HostRuntime) -> io::Result<()> {
    let mut input = rt.stdin();
    cases::print(&rt, cases::replay(|k| next(&mut input, k)))
}
