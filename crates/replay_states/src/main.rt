// Replays recorded inputs of an independent reading of document 02, item 9: standard input holds them one after the
// other, in the form that RECORDING.md beside this program states. Prints how many were compared and how many differ,
// in the answer, the detail or any byte of the memory about the states; and how many were compared with a falsified
// answer, and how many of those differ, which is to be all: input k has a byte of its answer changed where k is even,
// and of its states elsewhere.
//
// Of 641 bytes A5 input k lends the first 640 or 641, and in a call before it 0, 175, 176, 177 or 639, which is
// answered by 14. Bytes that are no state's are to stay A5, as is the detail for 14.
#![tactic(auto)]

ghost use Rattle.std.specs.Prelude.{◌≤◌};

use cases::Compared;
use std::io;
use std::io::Read;

// What the memory holds before a call, and the detail.
const FOUND: u8 = 0xa5;

const FOUND_DETAIL: u32 = 0xa5a5_a5a5;

// How many bytes input k lends.
fn room(k: u64) -> usize
    ensures { result ≤ 641 }
{
    if k % 2 == 0 {
        return 640;
    }
    641
}

// How many bytes it lends for 14.
fn short_room(k: u64) -> usize
    ensures { result ≤ 641 }
{
    match k % 5 {
        0 => 0,
        1 => 175,
        2 => 176,
        3 => 177,
        _ => 639,
    }
}

// The memory after a call that left these states.
fn written(recorded: &[u8; 640]) -> [u8; 641] {
    let mut memory = [FOUND; 641];
    memory[..640].copy_from_slice(recorded);
    memory
}

// Whether an answer and the memory after the call are these.
fn alike(
    answer: &[u8; 8],
    memory: &[u8; 641],
    recorded: &[u8; 8],
    recorded_states: &[u8; 640],
) -> bool {
    let expected = written(recorded_states);
    check::same(answer, recorded) && check::same(memory, &expected)
}

// Whether a call that lent too little was answered so, and wrote nothing.
fn refused(answer: &[u8; 8], memory: &[u8; 641]) -> bool {
    let expected = [FOUND; 641];
    check::same(answer, &[14, 0, 0, 0, FOUND, FOUND, FOUND, FOUND])
        && check::same(memory, &expected)
}

// The answer number and the detail of input k: with one byte changed where k is even.
fn falsified_answer(recorded: &[u8; 8], k: u64) -> [u8; 8] {
    let mut other = *recorded;
    let place = (k / 2 % 8) as usize;
    if k % 2 == 0 {
        other[place] ^= 1;
    }
    other
}

// The lent bytes of input k: with one changed where k is odd.
fn falsified_states(recorded: &[u8; 640], k: u64) -> [u8; 640] {
    let mut other = *recorded;
    let place = (k / 2 % 640) as usize;
    if k % 2 == 1 {
        other[place] ^= 1;
    }
    other
}

// The inputs of a call.
#[derive(Clone, Copy)]
struct Inputs<'a> {
    receptions: &'a [u8],
    clock: &'a [u8],
    altitude: &'a [u8],
    reference: &'a [u8],
    present: u8,
}

// The answer number and the detail of these inputs, one after the other, and the lent bytes.
fn tell(inputs: Inputs<'_>, states: &mut [u8]) -> [u8; 8] {
    let mut detail = FOUND_DETAIL;
    let number = mlat_solver::mlat_why(
        inputs.receptions,
        inputs.clock,
        inputs.altitude,
        inputs.reference,
        inputs.present as u32,
        states,
        &mut detail,
    );
    let mut answer = [0u8; 8];
    words::put_u32(&mut answer, 0, number);
    words::put_u32(&mut answer, 4, detail);
    answer
}

// What two calls with these inputs left, one that lends too little and one that does not, compared with the answer of
// input k.
fn compare(
    inputs: Inputs<'_>,
    recorded: &[u8; 8],
    recorded_states: &[u8; 640],
    k: u64,
) -> Compared {
    let mut short_memory = [FOUND; 641];
    let mut memory = [FOUND; 641];
    let short_answer = tell(inputs, &mut short_memory[..short_room(k)]);
    let answer = tell(inputs, &mut memory[..room(k)]);
    let other = falsified_answer(recorded, k);
    let other_states = falsified_states(recorded_states, k);
    let same = alike(&answer, &memory, recorded, recorded_states);
    Compared {
        same: refused(&short_answer, &short_memory) && same,
        same_falsified: alike(&answer, &memory, &other, &other_states),
    }
}

// The next input, which is input k. An answer that ends early differs.
fn next(input: &mut impl Read, k: u64) -> Option<Compared> {
    let mut head = [0u8; 8];
    if cases::read(input, &mut head, 8) < 8 {
        return None;
    }
    let mut receptions = [0u8; 16384];
    let mut clock = [0u8; 16384];
    let mut altitude = [0u8; 256];
    let mut reference = [0u8; 256];
    let mut recorded = [0u8; 8];
    let mut recorded_states = [0u8; 640];
    let r = cases::read(input, &mut receptions, words::u16_at(&head, 0) as usize);
    let c = cases::read(input, &mut clock, words::u16_at(&head, 2) as usize);
    let a = cases::read(input, &mut altitude, head[4] as usize);
    let f = cases::read(input, &mut reference, head[5] as usize);
    let began = cases::read(input, &mut recorded, 8) == 8;
    let whole = cases::read(input, &mut recorded_states, 640) == 640;
    let inputs = Inputs {
        receptions: &receptions[..r],
        clock: &clock[..c],
        altitude: &altitude[..a],
        reference: &reference[..f],
        present: head[6],
    };
    let found = compare(inputs, &recorded, &recorded_states, k);
    Some(Compared {
        same: began && whole && found.same,
        same_falsified: found.same_falsified,
    })
}

fn main(rt: HostRuntime) -> io::Result<()> {
    let mut input = rt.stdin();
    cases::print(&rt, cases::replay(|k| next(&mut input, k)))
}
