// Fix records, for callers in C: document 02, item 1.
ghost use Rattle.std.specs.Prelude.{◌≡◌, length};
ghost use Rattle.refusals.specs.Refusals.{answer_of};
ghost use Rattle.reader.specs.Read.{place_refusal, read_of};
ghost use Rattle.mlat_solver.specs.Records as held;

use geo::Geodetic;
use reader::Content;
use record::Fix;
use refusals::Refusal;

// Where the record at a place, from 0, begins in the caller's own file. 16 where the file is not whole
// records, then 17 where it ends before the place; then `at` stays.
pub fn mlat_record_at(file: &[u8], place: u64, at: &mut u64) -> u32
    ensures answer { result ≡ place_refusal (length file.now) place }
    ensures offset { at.new ≡ held.placed_at (length file.now) place at.old }
{
    match reader::find_record(file, place) {
        Ok(_) => {
            *at = 176 * place;
            0
        }
        Err(refusal) => refusal.number(),
    }
}

// The version that a record with this answer shows.
fn version_of(answer: u32) -> u32
    ensures { result ≡ held.version_of answer }
{
    if answer == 0 {
        return 8;
    }
    0
}

// The detail of a fix is its dof.
fn dof_of(answer: u32, detail: u32) -> u32
    ensures { result ≡ held.dof_of answer detail }
{
    if answer == 0 {
        return detail;
    }
    0
}

fn words_of(v: Content) -> [u32; 6]
    ensures { result ≡ held.words_of v }
{
    let altitude = v.altitude;
    let fix = v.fix;
    let version = version_of(v.answer);
    let kind = record::kind(altitude) as u32;
    [v.answer, v.detail, v.n, fix.mask, version, kind]
}

fn numbers_of(v: Content) -> [f64; 18]
    ensures { result ≡ held.numbers_of v }
{
    let altitude = v.altitude;
    let fix = v.fix;
    let ecef = fix.ecef;
    let position = fix.position;
    let r0 = fix.r0;
    let r1 = fix.r1;
    let r2 = fix.r2;
    let metres = record::metres(altitude);
    [
        ecef[0],
        ecef[1],
        ecef[2],
        fix.t,
        position.lat_deg,
        position.lon_deg,
        position.height_m,
        r0[0],
        r0[1],
        r0[2],
        r1[0],
        r1[1],
        r1[2],
        r2[0],
        r2[1],
        r2[2],
        fix.chi2,
        metres,
    ]
}

// Takes a record of 176 bytes apart: 16 for another length, 18 where it breaks a rule.
pub fn mlat_read_record(
    bytes: &[u8],
    words: &mut [u32; 6],
    numbers: &mut [f64; 18],
    time: &mut i64,
) -> u32
    ensures answer { result ≡ answer_of (read_of bytes.now) }
    ensures words { words.new ≡ held.words_after (read_of bytes.now) words.old }
    ensures numbers { numbers.new
        ≡ held.numbers_after (read_of bytes.now) numbers.old }
    ensures time { time.new ≡ held.time_after (read_of bytes.now) time.old }
{
    match reader::read(bytes) {
        Ok(content) => {
            let fix = content.fix;
            *words = words_of(content);
            *numbers = numbers_of(content);
            *time = fix.transmit_ps;
            0
        }
        Err(why) => why.number(),
    }
}

fn fix_of(words: [u32; 6], numbers: [f64; 18], time: i64) -> Fix
    ensures { result ≡ held.fix_of words numbers time }
{
    let position = Geodetic {
        lat_deg: numbers[4],
        lon_deg: numbers[5],
        height_m: numbers[6],
    };
    let dof = dof_of(words[0], words[1]);
    let ecef = [numbers[0], numbers[1], numbers[2]];
    let r0 = [numbers[7], numbers[8], numbers[9]];
    let r1 = [numbers[10], numbers[11], numbers[12]];
    let r2 = [numbers[13], numbers[14], numbers[15]];
    Fix {
        mask: words[3],
        dof,
        ecef,
        t: numbers[3],
        position,
        transmit_ps: time,
        r0,
        r1,
        r2,
        chi2: numbers[16],
    }
}

fn content_of(words: [u32; 6], numbers: [f64; 18], time: i64) -> Content
    ensures { result ≡ held.content_of words numbers time }
{
    let altitude = reader::altitude_of(words[5], numbers[17]);
    let fix = fix_of(words, numbers, time);
    Content {
        answer: words[0],
        detail: words[1],
        n: words[2],
        altitude,
        fix,
    }
}

// Whether the words and numbers lose nothing as a content.
fn whole(words: [u32; 6], numbers: [f64; 18]) -> bool
    ensures { result ≡ held.whole words numbers }
{
    let version = version_of(words[0]);
    let kind = words[5];
    let metres = binary64::to_bits(numbers[17]);
    if words[4] != version {
        return false;
    }
    if kind > 2 {
        return false;
    }
    if kind != 0 {
        return true;
    }
    metres == 0
}

// Puts a record together again in the first 176 bytes of `out`: 14 where it is shorter, then 18 for what
// `mlat_read_record` could not have given.
pub fn mlat_write_record(words: &[u32; 6], numbers: &[f64; 18], time: i64, out: &mut [u8]) -> u32
    ensures answer { result ≡ held.record_answer words.now numbers.now time
        out.old }
    ensures output { out.new
        ≡ held.record_output words.now numbers.now time out.old }
{
    if out.len() < 176 {
        return Refusal::ShortOutput.number();
    }
    if !whole(*words, *numbers) {
        return Refusal::MalformedRecord.number();
    }
    refusals::answer(reader::write(content_of(*words, *numbers, time), out))
}
