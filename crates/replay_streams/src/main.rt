// Solves a recorded stream of problems by the C functions of streams. Standard input holds the stream; RECORDING.md
// says where it is from. Prints the record of each problem by `mlat_solve_next`, at its place in the stream; then once more
// the record of each, of inputs that are cut as `mlat_cut_lengths` says. The expected output is twice the records that
// the original gives.
#![tactic(auto)]

use std::alloc::{AllocError, Global};
use std::io;
use std::io::Read;

// A proved loop has to end, and nothing says that an input does: no stream has this many problems.
const MOST: usize = 1_000_000;

// The bytes of the four lengths.
const HEAD: usize = 16;

// In the place of a length, for an input that is absent.
const ABSENT: u32 = 0xffff_ffff;

// What lies before a record is written: bytes that no record is full of.
const UNTOUCHED: u8 = 0xa5;

// The bytes of an input of this length or mark.
fn size(length: u32) -> usize {
    if length == ABSENT {
        return 0;
    }
    length as usize
}

// The four lengths at the start of a problem; of a stream that ends within them, absent inputs.
fn lengths(problem: &[u8]) -> [u32; 4] {
    if problem.len() < HEAD {
        return [ABSENT; 4];
    }
    [
        words::u32_at(problem, 0),
        words::u32_at(problem, 4),
        words::u32_at(problem, 8),
        words::u32_at(problem, 12),
    ]
}

// Adds n bytes from byte `at` on, or what there is of them.
fn push_part(cut: &mut Vec<u8>, problem: &[u8], at: usize, n: usize) -> Result<(), AllocError> {
    let from = at.min(problem.len());
    let part = &problem[from..];
    cut.extend_from_slice(&part[..n.min(part.len())])
}

// The problem with each input cut to so much of its start as is enough.
fn cut(alloc: Global, problem: &[u8]) -> Result<Vec<u8>, AllocError> {
    let whole = lengths(problem);
    let mut enough = [0; 4];
    mlat_solver::mlat_cut_lengths(&whole, &mut enough);
    let mut cut = Vec::new(alloc);
    for length in enough {
        cut.extend_from_slice(&length.to_le_bytes())?;
    }
    push_parts(&mut cut, problem, whole, enough)?;
    Ok(cut)
}

// Adds the starts of the inputs.
fn push_parts(
    cut: &mut Vec<u8>,
    problem: &[u8],
    whole: [u32; 4],
    enough: [u32; 4],
) -> Result<(), AllocError> {
    let mut at = HEAD;
    for (whole, enough) in whole.iter().zip(&enough) {
        push_part(cut, problem, at, size(*enough))?;
        at = at.saturating_add(size(*whole));
    }
    Ok(())
}

// Solves the first problem and prints its record. How many bytes it takes: none where the stream ends within it.
fn solve(rt: &impl Print, stream: &[u8]) -> io::Result<u64> {
    let mut out = [UNTOUCHED; 176];
    let mut used = 0;
    let answer = mlat_solver::mlat_solve_next(stream, &mut out, &mut used);
    if answer != 16 {
        rt.write_all(&out)?;
    }
    Ok(used)
}

// How many bytes a problem has, by its lengths.
fn takes(problem: &[u8]) -> u64 {
    lengths(problem).iter().fold(
        HEAD as u64,
        |bytes, length| bytes.wrapping_add(size(*length) as u64),
    )
}

// The stream from byte `used` on; nothing where it has not so many.
fn rest(stream: &[u8], used: u64) -> &[u8] {
    stream.get(used as usize..).unwrap_or(&[])
}

// Solves the problems of a stream as they stand in it.
fn solve_all(rt: &impl Print, stream: &[u8]) -> io::Result<()> {
    let mut left = stream;
    for _ in 0..MOST {
        let used = solve(rt, left)?;
        if used == 0 {
            break;
        }
        left = rest(left, used);
    }
    Ok(())
}

// Solves the problems of a stream, each with its inputs cut.
fn solve_all_cut(rt: &impl Print, alloc: Global, stream: &[u8]) -> io::Result<()> {
    let mut left = stream;
    for _ in 0..MOST {
        if left.len() < HEAD {
            break;
        }
        let problem = cut(alloc, left)?;
        solve(rt, &problem)?;
        left = rest(left, takes(left));
    }
    Ok(())
}

fn main(rt: HostRuntime) -> io::Result<()> {
    let mut stream = Vec::new(rt.alloc());
    rt.stdin().read_to_end(&mut stream)?;
    solve_all(&rt, &stream)?;
    solve_all_cut(&rt, rt.alloc(), &stream)
}
