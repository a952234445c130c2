// A stream of problems, one after the other, for callers who solve many. A problem is 16 bytes, the lengths of its
// receptions, clock covariance, altitude and reference, u32 each, little-endian, where 0xFFFFFFFF marks an input that
// is absent; then the bytes of the inputs that are there, in this order. Absent receptions are empty ones.
#![tactic(auto)]

ghost use Rattle.std.specs.Prelude.{◌+◌, ◌<◌, ◌≤◌, ◌^◌, ◌≡◌, cond, length};
ghost use Rattle.stream.specs.Frames as frames;
ghost use Rattle.stream.specs.Held.{present_of};
ghost use Rattle.stream.specs.Held as held;

use refusals::Refusal;

// The bytes of the four lengths.
pub const HEAD: usize = 16;

// The bytes of a record.
const RECORD: usize = 176;

// In the place of a length, for an input that is absent.
const ABSENT: u32 = 0xffff_ffff;

// The bytes of 33 receptions, one too many; and one byte more than the longest clock covariance, altitude and reference
// that are taken: entry's specs/Cut.antt says why so much of an input stands for every longer one.
const RECEPTIONS: u32 = 4356;

const CLOCK: u32 = 8193;

const ALTITUDE: u32 = 17;

const REFERENCE: u32 = 9;

// The lengths of a problem's inputs, in bytes, or ABSENT.
#[derive(Clone, Copy)]
pub struct Head {
    pub receptions: u32,
    pub clock: u32,
    pub altitude: u32,
    pub reference: u32,
}

// The first problem of a stream: how many bytes it takes and document 01's answer number.
#[derive(Clone, Copy)]
pub struct Solved {
    pub used: usize,
    pub number: u32,
}

// The lengths at the start of a stream.
pub fn head_of(stream: &[u8]) -> Head
    requires { 16 ≤ length stream.now }
    ensures { result ≡ frames.head_of stream.now }
{
    Head {
        receptions: words::u32_at(stream, 0),
        clock: words::u32_at(stream, 4),
        altitude: words::u32_at(stream, 8),
        reference: words::u32_at(stream, 12),
    }
}

// How many bytes an input has, by its length or mark.
pub fn size_of(mark: u32) -> usize
    ensures { (result ≡ frames.size_of mark) × (result < 2 ^ 32) }
{
    if mark == ABSENT {
        return 0;
    }
    mark as usize
}

// The bit of an input, if it is there.
fn bit(mark: u32, value: u32) -> u32
    ensures { (result ≡ cond (held.there mark) value 0) × (result ≤ value) }
{
    if mark == ABSENT {
        return 0;
    }
    value
}

// Which inputs there are, as `entry::solve` asks.
fn present_of(head: Head) -> u32
    ensures { result ≡ present_of head }
{
    bit(head.clock, 1) + bit(head.altitude, 2) + bit(head.reference, 4)
}

// Solves the problem of these lengths whose inputs are at the start of `body`, one after the other; none where `body`
// ends before they do.
pub fn solve_body(head: Head, body: &[u8], out: &mut [u8]) -> Option<Solved>
    ensures outcome { result ≡ frames.solved head body.now out.old }
    ensures output { out.new ≡ frames.output_after head body.now out.old }
{
    let clock = size_of(head.receptions);
    let altitude = clock + size_of(head.clock);
    let reference = altitude + size_of(head.altitude);
    let end = reference + size_of(head.reference);
    if body.len() < end {
        return None;
    }
    let present = present_of(head);
    let number = entry::solve(
        &body[..clock],
        &body[clock..altitude],
        &body[altitude..reference],
        &body[reference..end],
        present,
        out,
    );
    Some(Solved {
        used: HEAD + end,
        number,
    })
}

// Solves the first problem of a stream; none where it ends within that.
pub fn solve_next(stream: &[u8], out: &mut [u8]) -> Option<Solved>
    ensures outcome { result ≡ frames.solved_next stream.now out.old }
    ensures output { out.new ≡ frames.output_next stream.now out.old }
{
    if stream.len() < HEAD {
        return None;
    }
    let head = head_of(stream);
    solve_body(head, &stream[HEAD..], out)
}

// The same for a caller who lends an output of any length, and a number for the bytes that the problem takes: 14 where
// the output is under 176 bytes, tested first; 16 where the stream ends within the problem. Then both stay as found.
pub fn answer_next(stream: &[u8], out: &mut [u8], used: &mut u64) -> u32
    ensures answer { result ≡ frames.next_answer stream.now out.old }
    ensures output { out.new ≡ frames.next_output stream.now out.old }
    ensures used { used.new ≡ frames.used_after stream.now out.old used.old }
{
    if out.len() < RECORD {
        return Refusal::ShortOutput.number();
    }
    match solve_next(stream, out) {
        Some(first) => {
            *used = first.used as u64;
            first.number
        }
        None => Refusal::TornFile.number(),
    }
}

// Of receptions that are too many, one too many are kept, or, where they are torn, one byte fewer.
fn kept_receptions(mark: u32) -> u32
    ensures { result ≡ frames.kept_receptions mark }
{
    if mark == ABSENT {
        return mark;
    }
    if mark < RECEPTIONS {
        return mark;
    }
    if (mark - RECEPTIONS) as usize % receptions::RECEPTION_BYTES == 0 {
        return RECEPTIONS;
    }
    RECEPTIONS - 1
}

fn kept_to(most: u32, mark: u32) -> u32
    ensures { result ≡ frames.kept_to most mark }
{
    if mark == ABSENT {
        return mark;
    }
    if mark < most {
        return mark;
    }
    most
}

// The lengths of what is kept of a problem's inputs: so much of their starts gets the same reply.
pub fn kept(head: Head) -> Head
    ensures { result ≡ frames.kept head }
{
    Head {
        receptions: kept_receptions(head.receptions),
        clock: kept_to(CLOCK, head.clock),
        altitude: kept_to(ALTITUDE, head.altitude),
        reference: kept_to(REFERENCE, head.reference),
    }
}
