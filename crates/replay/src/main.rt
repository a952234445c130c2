// Replays recorded inputs of the original: standard input holds them one after the other, in the form that RECORDING.md
// beside this program states. Each is solved by `mlat_solve` and, where its receptions are whole ones, as a list by
// `mlat_solve_receptions`. Prints for each call how many inputs were compared and how many differ, in the answer or in
// any byte of the memory about the record; and how many were compared with a falsified record, and how many of those
// differ, which is to be all: the record of input k has its byte k % 176 changed, byte 0 being the answer.
//
// Of 641 bytes A5 input k lends the first 176, 177, 639, 640 or 641, and in a call before it none or 175, which is
// answered by 14. Bytes that are not the record's are to stay A5.
#![tactic(auto)]

ghost use Rattle.std.specs.Prelude.{◌≤◌};

mod list;

use cases::{Compared, Tally};
use std::io;
use std::io::Read;

// What the memory holds before a call.
const FOUND: u8 = 0xa5;

// How many bytes input k lends.
fn room(k: u64) -> usize
    ensures { result ≤ 641 }
{
    match k % 5 {
        0 => 176,
        1 => 177,
        2 => 639,
        3 => 640,
        _ => 641,
    }
}

// How many bytes it lends for 14.
fn short_room(k: u64) -> usize
    ensures { result ≤ 641 }
{
    if k % 2 == 0 {
        return 0;
    }
    175
}

// The memory after a call that wrote this record.
fn written(recorded: &[u8; 176]) -> [u8; 641] {
    let mut memory = [FOUND; 641];
    memory[..176].copy_from_slice(recorded);
    memory
}

// Whether an answer and the memory after the call are the recorded ones.
fn alike(answer: u32, memory: &[u8; 641], recorded: &[u8; 176]) -> bool {
    let expected = written(recorded);
    answer == recorded[0] as u32 && check::same(memory, &expected)
}

// Whether a call that lent too little was answered so, and wrote nothing.
fn refused(answer: u32, memory: &[u8; 641]) -> bool {
    let expected = [FOUND; 641];
    answer == 14 && check::same(memory, &expected)
}

// The record of input k with one byte changed.
fn falsified(recorded: &[u8; 176], k: u64) -> [u8; 176] {
    let mut other = *recorded;
    let place = (k % 176) as usize;
    other[place] ^= 1;
    other
}

// The inputs of a call.
#[derive(Clone, Copy)]
struct Inputs<'a> {
    receptions: &'a [u8],
    clock: &'a [u8],
    altitude: &'a [u8],
    reference: &'a [u8],
    present: u32,
}

// What two calls leave, one that lends too little and one that does not, compared with the record of input k.
fn compare<F: Fn(&mut [u8]) -> u32>(call: F, recorded: &[u8; 176], k: u64) -> Compared
    requires { F.IsAlwaysCallable call }
{
    let mut short_memory = [FOUND; 641];
    let mut memory = [FOUND; 641];
    let short_answer = call(&mut short_memory[..short_room(k)]);
    let answer = call(&mut memory[..room(k)]);
    let other = falsified(recorded, k);
    Compared {
        same: refused(short_answer, &short_memory) && alike(answer, &memory, recorded),
        same_falsified: alike(answer, &memory, &other),
    }
}

// `mlat_solve` of these inputs, compared with the record of input k.
fn solved(inputs: Inputs<'_>, recorded: &[u8; 176], k: u64) -> Compared {
    compare(
        |out| mlat_solver::mlat_solve(
            inputs.receptions,
            inputs.clock,
            inputs.altitude,
            inputs.reference,
            inputs.present,
            out,
        ),
        recorded,
        k,
    )
}

// `mlat_solve_receptions` of these inputs, compared with the record of input k.
fn listed(inputs: Inputs<'_>, recorded: &[u8; 176], k: u64) -> Compared {
    let n = inputs.receptions.len() / list::RECEPTION;
    if n > list::MOST {
        return Compared {
            same: false,
            same_falsified: true,
        };
    }
    let items = list::of_bytes(inputs.receptions, n);
    let list = list::first(&items, n);
    compare(
        |out| mlat_solver::mlat_solve_receptions(
            list,
            inputs.clock,
            inputs.altitude,
            inputs.reference,
            inputs.present,
            out,
        ),
        recorded,
        k,
    )
}

// The comparisons of both calls with one input; of the second where its receptions are whole ones.
#[derive(Clone, Copy)]
struct Both {
    bytes: Compared,
    list: Option<Compared>,
}

fn call_both(inputs: Inputs<'_>, recorded: &[u8; 176], k: u64) -> Both {
    let whole = inputs.receptions.len() % list::RECEPTION == 0;
    Both {
        bytes: solved(inputs, recorded, k),
        list: whole.then(|| listed(inputs, recorded, k)),
    }
}

// The next input, which is input k. A record that ends early is made one that no call gives.
fn next(input: &mut impl Read, k: u64) -> Option<Both> {
    let mut head = [0u8; 8];
    if cases::read(input, &mut head, 8) < 8 {
        return None;
    }
    let mut receptions = [0u8; 16384];
    let mut clock = [0u8; 16384];
    let mut altitude = [0u8; 256];
    let mut reference = [0u8; 256];
    let mut recorded = [0u8; 176];
    let r = cases::read(input, &mut receptions, words::u16_at(&head, 0) as usize);
    let c = cases::read(input, &mut clock, words::u16_at(&head, 2) as usize);
    let a = cases::read(input, &mut altitude, head[4] as usize);
    let f = cases::read(input, &mut reference, head[5] as usize);
    if cases::read(input, &mut recorded, 176) < 176 {
        recorded = [0xffu8; 176];
    }
    let inputs = Inputs {
        receptions: &receptions[..r],
        clock: &clock[..c],
        altitude: &altitude[..a],
        reference: &reference[..f],
        present: head[6] as u32,
    };
    Some(call_both(inputs, &recorded, k))
}

// Compares the inputs, one after the other: by the bytes, and by the list. The two are counted side by side, so that
// the loop is written out here: `cases::replay` has one tally.
fn compare_all(input: &mut impl Read) -> (Tally, Tally) {
    let mut tally = Tally::none();
    let mut lists = Tally::none();
    for k in 0..cases::MOST {
        let Some(found) = next(input, k) else {
            break;
        };
        tally = tally.with(found.bytes);
        if let Some(list) = found.list {
            lists = lists.with(list);
        }
    }
    (tally, lists)
}

fn main(rt: HostRuntime) -> io::Result<()> {
    let (tally, lists) = compare_all(&mut rt.stdin());
    rt.print("mlat_solve: ")?;
    cases::print(&rt, tally)?;
    rt.print("mlat_solve_receptions: ")?;
    cases::print(&rt, lists)
}
