// Solves a stream of problems: standard input to standard output, a record of 176 bytes for each problem, for a refusal
// too, in order and as soon as it is solved.
//
//     solve_many [--status] <STREAM >RECORDS
//
// The crate stream has the form of a stream (docs/GUIDE.md, 'Many problems at once'). Of an input that is longer than
// any that is taken only so much is kept as decides its answer, so that no length needs more memory. A stream that ends
// within a problem is said on standard error, with the problem's place and the byte that it begins at, both from 0;
// what was solved before is written. An input or an output that fails is said there too. On a terminal a line there
// tells how far it is.
//
// Its exit status is 0 in each case. With --status it writes how it ended to descriptor 3, one digit, from
// which the scripts ./solve_many and mlat-solve-many make theirs: 0 at the stream's end, 3 within a problem, 4 where
// the input cannot be read, 5 where the output is not taken.
#![tactic(auto)]

ghost use Rattle.std.specs.Prelude.{◌≤◌};

use std::io::{IsTerminal, Read};
use std::rt::Clock;
use stream::Head;

// A proved loop has to end, and nothing says that a stream does: no stream has this many problems.
const MOST: u64 = 0xff_ffff_ffff_ffff;

// Room for what is kept of a problem's inputs: 4,356, 8,193, 17 and 9 bytes.
const ROOM: usize = 12575;

// How many bytes are passed over at a time.
const BLOCK: usize = 4096;

// How a stream ends.
#[derive(Clone, Copy, Debug, PartialEq, Eq)]
enum End {
    Ended,
    Torn,
    Unread,
    Unwritten,
}

impl End {
    // What --status writes of it.
    fn digit(self) -> u64 {
        match self {
            End::Ended => 0,
            End::Torn => 3,
            End::Unread => 4,
            End::Unwritten => 5,
        }
    }
}

// Where its digit goes.
const STATUS_FILENO: i32 = 3;

// A problem that was solved and written: its answer number, and how many bytes it has.
#[derive(Clone, Copy)]
struct Solved {
    number: u32,
    bytes: u64,
}

// That the stream ends in place of a problem, how, and how many of the problem's bytes came.
#[derive(Clone, Copy)]
struct Stop {
    end: End,
    bytes: u64,
}

// What was done so far: problems in all, those of them with a fix, those that were refused, and their bytes.
#[derive(Clone, Copy)]
struct Done {
    problems: u64,
    fixes: u64,
    refused: u64,
    bytes: u64,
}

// When the first problem was begun and when that was last told, seconds since 1970.
#[derive(Clone, Copy)]
struct Watch {
    start: u64,
    last: u64,
}

// ---- reading

// Reads n bytes to `body` from byte `at` on. How many came: none where there is no room.
fn read_to(input: &mut impl Read, body: &mut [u8], at: usize, n: usize) -> usize {
    let room = body.len();
    if at > room || n > room - at {
        return 0;
    }
    host::read_full(input, &mut body[at..at + n])
}

// Passes over n bytes, or a block of them. How many came.
fn some_passed(input: &mut impl Read, n: usize) -> usize
    ensures { result ≤ n }
{
    let mut block = [0u8; BLOCK];
    read_to(input, &mut block, 0, n.min(BLOCK)).min(n)
}

// Passes over n bytes. How many came. (A `while`: each turn takes as many as came, which no range counts.)
fn passed(input: &mut impl Read, n: usize) -> usize
    ensures { result ≤ n }
{
    let mut left = n;
    while left > 0 {
        let came = some_passed(input, left);
        if came == 0 {
            return n - left;
        }
        left -= came;
    }
    n
}

// Reads an input of `size` bytes, of which `kept` are kept, to `body` from byte `at` on. How many came.
fn read_input(input: &mut impl Read, body: &mut [u8], at: usize, kept: usize, size: usize) -> u64 {
    let came = read_to(input, body, at, kept);
    if came < kept || size <= kept {
        return came as u64;
    }
    (came as u64).wrapping_add(passed(input, size - kept) as u64)
}

// How many bytes the inputs have.
fn bytes_of(head: Head) -> usize {
    let two = stream::size_of(head.receptions) + stream::size_of(head.clock);
    two + stream::size_of(head.altitude) + stream::size_of(head.reference)
}

// Reads the inputs, of which so much is kept. How many bytes came: fewer than they have where the stream ends.
fn read_inputs(input: &mut impl Read, body: &mut [u8], head: Head, kept: Head) -> u64 {
    let all = bytes_of(head);
    if bytes_of(kept) == all {
        return read_to(input, body, 0, all) as u64;
    }
    let clock = stream::size_of(kept.receptions);
    let altitude = clock + stream::size_of(kept.clock);
    let reference = altitude + stream::size_of(kept.altitude);
    let a = read_input(input, body, 0, clock, stream::size_of(head.receptions));
    let b = read_input(
        input,
        body,
        clock,
        altitude - clock,
        stream::size_of(head.clock),
    );
    let c = read_input(
        input,
        body,
        altitude,
        reference - altitude,
        stream::size_of(head.altitude),
    );
    let k = stream::size_of(kept.reference);
    let d = read_input(input, body, reference, k, stream::size_of(head.reference));
    a.wrapping_add(b).wrapping_add(c).wrapping_add(d)
}

// ---- solving

// The end of a stream of whose next problem so many bytes came. A failing read is told from the end.
fn ended<R: Eprint + Alloc>(rt: &R, input: &mut impl Read, bytes: u64) -> Stop {
    let end = if !host::sound(rt, input, b"solve_many: standard input") {
        End::Unread
    } else if bytes == 0 {
        End::Ended
    } else {
        End::Torn
    };
    Stop { end, bytes }
}

// Reads, solves and writes a problem of these lengths. Where it cannot be written, that is said.
fn solve<R: Print + Eprint + Alloc>(
    rt: &R,
    input: &mut impl Read,
    head: Head,
) -> Result<Solved, Stop> {
    let mut body = [0u8; ROOM];
    let mut out = [0u8; 176];
    let kept = stream::kept(head);
    let came = read_inputs(input, &mut body, head, kept);
    let bytes = came.wrapping_add(16);
    if came < bytes_of(head) as u64 {
        return Err(ended(rt, input, bytes));
    }
    let number = stream::solve_body(kept, &body, &mut out).map_or(0, |solved| solved.number);
    if !host::written(rt, rt.write_all(&out), b"solve_many: standard output") {
        return Err(Stop {
            end: End::Unwritten,
            bytes,
        });
    }
    Ok(Solved { number, bytes })
}

// The next problem.
fn next<R: Print + Eprint + Alloc>(rt: &R, input: &mut impl Read) -> Result<Solved, Stop> {
    let mut lengths = [0u8; 16];
    let n = host::read_full(input, &mut lengths);
    if n < 16 {
        return Err(ended(rt, input, n as u64));
    }
    solve(rt, input, stream::head_of(&lengths))
}

// ---- telling

// Seconds since 1970, 0 where the clock cannot be read.
fn seconds(rt: &impl Clock) -> u64 {
    match rt.since_1970() {
        Ok(time) => time.as_secs(),
        Err(_) => 0,
    }
}

fn each_second(done: Done, start: u64, now: u64) -> u64 {
    if now <= start {
        return done.problems;
    }
    done.problems / (now - start)
}

fn print_done(rt: &impl Eprint, done: Done, start: u64, now: u64) {
    let fixes = done.fixes;
    let refused = done.refused;
    let speed = each_second(done, start, now);
    let _ = eprint!(rt; "\rsolve_many: {fixes} fixes, {refused} refused, {speed} a second");
}

// Tells how far it is, if a second has passed since.
fn told<R: Eprint + Clock>(rt: &R, watch: Watch, done: Done) -> Watch {
    let now = seconds(rt);
    if now != watch.last {
        print_done(rt, done, watch.start, now);
    }
    Watch {
        start: watch.start,
        last: now,
    }
}

// Says where a stream is torn.
fn print_torn(rt: &impl Eprint, done: Done, came: u64) {
    let place = done.problems;
    let byte = done.bytes;
    let _ = eprintln!(rt;
        "solve_many: the stream ends within the problem at place {place}, which begins at byte {byte}: {came} bytes of it are there"
    );
}

// The last words, and how the stream ended.
fn last<R: Eprint + Clock>(rt: &R, watch: Option<Watch>, done: Done, stop: Stop) -> End {
    if let Some(watch) = watch {
        print_done(rt, done, watch.start, seconds(rt));
        host::say(rt, "\n");
    }
    if stop.end == End::Torn {
        print_torn(rt, done, stop.bytes);
    }
    stop.end
}

// ---- the whole

fn with(done: Done, solved: Solved, problems: u64) -> Done {
    let fix = (solved.number == 0) as u64;
    Done {
        problems,
        fixes: done.fixes.wrapping_add(fix),
        refused: done.refused.wrapping_add(1 - fix),
        bytes: done.bytes.wrapping_add(solved.bytes),
    }
}

// Solves problem after problem, to the stream's end. How it ended. On a terminal it tells how far it is.
fn run<R: Print + Eprint + Alloc + Clock>(rt: &R, input: &mut impl Read, terminal: bool) -> End {
    let now = seconds(rt);
    let mut watch = terminal.then_some(Watch {
        start: now,
        last: now,
    });
    let mut done = Done {
        problems: 0,
        fixes: 0,
        refused: 0,
        bytes: 0,
    };
    for before in 0..MOST {
        match next(rt, input) {
            Ok(solved) => done = with(done, solved, before + 1),
            Err(stop) => return last(rt, watch, done, stop),
        }
        watch = watch.map(|watch| told(rt, watch, done));
    }
    End::Ended
}

fn main(rt: HostRuntime) {
    let mut word = [0u8; 16];
    let n = host::arg(&rt, 1, &mut word);
    let status = check::same(&word[..n], b"--status");
    if host::arg_count(&rt) > 2 || host::arg_count(&rt) == 2 && !status {
        host::say(&rt, "usage: solve_many [--status] <STREAM >RECORDS\n");
        return;
    }
    let end = run(&rt, &mut rt.stdin(), rt.stderr().is_terminal());
    if status {
        io::print_decimal(STATUS_FILENO, end.digit());
    }
}
