// Names the fixes of a file of records near a place: document 02, item 12.
//
//     find_fixes FILE LATITUDE LONGITUDE HEIGHT RADIUS    degrees, metres above the ellipsoid, metres
//     find_fixes FILE --ecef X Y Z RADIUS                 metres
//
// The nearest fix of the file comes first, then a line for each within the radius, in file order: its place, from 0,
// and its distance. A file or a query that is turned away is said on standard error, and then nothing is written; so
// are other arguments, and an output that fails.
//
// The file is read block by block: each block is whole records, but for the last of a torn file, and what is found in a
// block is found by `near`.
#![tactic(auto)]

mod decimals;
mod lines;

ghost use Rattle.std.specs.Prelude.{◌≡◌, ◌+◌, ◌%◌, ◌^◌, ◌≤◌, cond, List, [], length, if◌then◌else◌, ◌==◌, nat_eq, Float};
ghost use Rattle.near.specs.Near.{nearest_answer};
ghost use Rattle.near.specs.Parts.{nearest_in, joined};
ghost use Rattle.text.specs.Text.{text_of};
ghost use Rattle.find_fixes.specs.Blocks as blocks;

use decimals::number_at;
use geo::Geodetic;
use linalg::Vec3;
use lines::{fix_line, nearest_line};
use near::Held;
use refusals::Refusal;
use std::io;
use std::io::Read;
use std::ops::ControlFlow;
use std::rt::{Env, Files};
use text::Text;

// The records of a block, and its bytes.
const RECORDS: usize = 256;

const BLOCK: usize = 45056;

// The nearest fix so far, its place and how far it is; and why the file is turned away, 0 where it is not.
#[derive(Clone, Copy)]
struct Best {
    found: bool,
    place: u64,
    distance: f64,
    refusal: u32,
}

// What is asked for: those within the radius are named, if there is one, and the nearest is found.
#[derive(Clone, Copy)]
struct Query {
    point: Vec3,
    named: Option<f64>,
}

fn say(rt: &impl Eprint, text: &str) {
    host::say(rt, text);
}

// Prints a line.
fn print(rt: &impl Print, line: Text) -> io::Result<()>
    requires { (length line.bytes ≡ 512) × (line.n ≤ 512) }
{
    let bytes = line.bytes;
    let n = line.n;
    rt.write_all(&bytes[..n])
}

// Whether what was printed was written; where it was not, that is said.
fn told<R: Eprint + Alloc>(rt: &R, written: io::Result<()>) -> bool {
    host::written(rt, written, b"find_fixes: standard output")
}

// ---- what is turned away

// A file that is torn is so by its last block, and that counts before any record.
fn worse(before: u32, refusal: u32) -> u32
    ensures { result ≡ (if nat_eq refusal 0 then before else refusal) }
{
    if refusal != 0 {
        return refusal;
    }
    before
}

// 22 where the query is bad: what it gets of a file without records.
fn query_refusal(point: Vec3, radius: f64) -> u32 {
    let file = [0u8; 1];
    let mut places = [0u64; 1];
    refusals::answer(near::within(&file[..0], point, radius, &mut places))
}

// ---- the nearest

// The fix that is held as `near` has it.
fn held(best: Best) -> Held
    ensures { result ≡ blocks.held_in best }
{
    Held {
        found: best.found,
        place: best.place,
        distance: best.distance,
    }
}

// Nothing is found before the first block.
fn none_yet() -> Best
    ensures { ((point : List Float) → blocks.Searched [] point 0 result) × (result.refusal ≡ 0) }
{
    Best {
        found: false,
        place: u64::MAX,
        distance: 0.0,
        refusal: 0,
    }
}

// The nearest so far, once a block is searched whose first record is at place `base`: `near` joins the two. If what is
// held is the nearest of the bytes before the block, it is then that of the bytes up to its end.
fn with_block(block: &[u8], base: u64, point: Vec3, best: Best) -> Best
    ensures nearest { blocks.held_in result
        ≡ joined (blocks.held_in best) base (nearest_in block.now point) }
    ensures whole { blocks.GoesOn block.now point base best result }
    ensures refusal { result.refusal
        ≡ cond (nearest_answer block.now point == 0) best.refusal
        (nearest_answer block.now point) }
{
    let refusal = worse(
        best.refusal,
        refusals::answer(near::check_nearest(block, point)),
    );
    let next = near::join(held(best), base, near::nearest_in(block, point));
    Best {
        found: next.found,
        place: next.place,
        distance: next.distance,
        refusal,
    }
}

// ---- those within the radius

// What is printed of place k of a block whose first record is at place `base`: the line of the fix there, by its place
// in the file, if it is within the radius; else nothing. `near` finds it in the record by itself. Whatever is before
// the block, it is what is printed of place base + k of all bytes so far.
fn line_at(block: &[u8], base: u64, k: u64, point: Vec3, radius: f64) -> Text
    ensures line { text_of result
        ≡ blocks.line_at block.now point radius k ((base + k) % 2 ^ 64) }
    ensures whole { blocks.LineInFile block.now point radius base k (text_of result) }
    ensures room { (length result.bytes ≡ 512) × (result.n ≤ 512) }
{
    let fix = near::nearest_in(reader::record_at(block, k), point);
    let none = text::empty();
    if !fix.found {
        return none;
    }
    if fix.distance <= radius {
        return fix_line(std::num::wrapping_add_u64(base, k), fix.distance);
    }
    none
}

// Names the fixes of a block within the radius, a line each, as long as they can be written.
fn name_block(
    rt: &impl Print,
    block: &[u8],
    base: u64,
    point: Vec3,
    radius: f64,
) -> io::Result<()> {
    for k in 0..RECORDS {
        print(rt, line_at(block, base, k as u64, point, radius))?;
    }
    Ok(())
}

// Names those of a block, if that is asked. Whether nothing fails; where it does, that is said.
fn named<R: Print + Eprint + Alloc>(rt: &R, block: &[u8], base: u64, query: Query) -> bool {
    match query.named {
        Some(radius) => told(rt, name_block(rt, block, base, query.point, radius)),
        None => true,
    }
}

// The nearest so far, once the next block is searched. It ends the search where that block is the last, or where those
// in it cannot be named.
fn search_block<R: Print + Eprint + Alloc>(
    rt: &R,
    file: &mut impl Read,
    base: u64,
    query: Query,
    best: Best,
) -> ControlFlow<Best, Best> {
    let mut block = [0u8; BLOCK];
    let n = host::read_full(file, &mut block);
    let shown = named(rt, &block[..n], base, query);
    let next = with_block(&block[..n], base, query.point, best);
    if n < BLOCK || !shown {
        return ControlFlow::Break(next);
    }
    ControlFlow::Continue(next)
}

// The search of the file, block by block. Nothing says that a file ends, so the turns are counted.
fn search<R: Print + Eprint + Alloc>(rt: &R, file: &mut impl Read, query: Query) -> Best {
    let mut base = 0u64;
    let mut best = none_yet();
    for _ in 0..u64::MAX {
        match search_block(rt, file, base, query, best) {
            ControlFlow::Break(last) => return last,
            ControlFlow::Continue(next) => best = next,
        }
        base = base.wrapping_add(RECORDS as u64);
    }
    best
}

// ---- the whole

// The nearest fix of the file, and those within the radius named, if that is asked. None where the file cannot be read,
// which is said.
fn searched<R: Files + Print + Eprint + Alloc>(rt: &R, path: &[u8], query: Query) -> Option<Best> {
    let mut file = match host::open_read(rt, path) {
        Ok(file) => file,
        Err(error) => {
            host::fail(rt, path, error);
            return None;
        }
    };
    let best = search(rt, &mut file, query);
    host::sound(rt, &mut file, path).then_some(best)
}

// Says why a file is turned away, or else why the query is. Whether neither is.
fn passed(rt: &impl Eprint, file: u32, query: u32) -> bool {
    if file == Refusal::TornFile.number() {
        say(
            rt,
            "find_fixes: the file is not whole records of 176 bytes (16, torn file)\n",
        );
    } else if file == Refusal::MalformedRecord.number() {
        say(
            rt,
            "find_fixes: the file has a record that breaks a rule (18, malformed record)\n",
        );
    } else if file == 0 && query != 0 {
        say(
            rt,
            "find_fixes: the place or the radius is beyond 10^8 m, or the radius is negative (22, bad query)\n",
        );
    }
    file == 0 && query == 0
}

// A bad query is looked at after the file, which is searched from the origin then.
fn place_asked(point: Vec3, good: bool) -> Vec3 {
    if good {
        return point;
    }
    [0.0, 0.0, 0.0]
}

fn find<R: Files + Print + Eprint + Alloc>(rt: &R, path: &[u8], point: Vec3, radius: f64) {
    let refusal = query_refusal(point, radius);
    let nearest = Query {
        point: place_asked(point, refusal == 0),
        named: None,
    };
    let Some(best) = searched(rt, path, nearest) else {
        return;
    };
    if passed(rt, best.refusal, refusal) && told(rt, print(rt, nearest_line(held(best)))) {
        let within = Query {
            point,
            named: Some(radius),
        };
        searched(rt, path, within);
    }
}

// The ECEF point at a latitude, a longitude and a height, or of these coordinates.
fn point_of(x: f64, y: f64, z: f64, ecef: bool) -> Vec3 {
    if ecef {
        return [x, y, z];
    }
    geo::to_ecef(Geodetic {
        lat_deg: x,
        lon_deg: y,
        height_m: z,
    })
}

// Searches by the four numbers from argument i on, if each is good.
fn asked<R: Files + Print + Eprint + Alloc + Env>(rt: &R, path: &[u8], i: usize, ecef: bool)
    requires { i ≤ 3 }
{
    let x = number_at(rt, i);
    let y = number_at(rt, i + 1);
    let z = number_at(rt, i + 2);
    let radius = number_at(rt, i + 3);
    if let (Some(x), Some(y), Some(z), Some(radius)) = (x, y, z, radius) {
        find(rt, path, point_of(x, y, z, ecef), radius);
    } else {
        say(
            rt,
            "find_fixes: a number is at most 15 digits, with one point among them or none, and a minus or none\n",
        );
    }
}

fn main(rt: HostRuntime) {
    let mut path = host::buffer();
    let mut word = [0u8; 8];
    let p = host::arg(&rt, 1, &mut path);
    let w = host::arg(&rt, 2, &mut word);
    let ecef = check::same(&word[..w], b"--ecef");
    let count = host::arg_count(&rt);
    if ecef && count == 7 {
        asked(&rt, &path[..p], 3, true);
    } else if !ecef && count == 6 {
        asked(&rt, &path[..p], 2, false);
    } else {
        say(
            &rt,
            "usage: find_fixes FILE LATITUDE LONGITUDE HEIGHT RADIUS, or find_fixes FILE --ecef X Y Z RADIUS\n",
        );
    }
}
