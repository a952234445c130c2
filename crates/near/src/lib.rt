// Fixes near a place: document 02, item 12. `within` lists the fixes of a file within a radius of an ECEF point,
// `nearest` finds the nearest. Both look at the whole file before they write.
#![tactic(auto)]

mod query;

ghost use Rattle.std.specs.Prelude.{ℕ, ◌≡◌, ◌+◌, ◌*◌, ◌≤◌, length};
ghost use Rattle.std.specs.Result.{result_unwrap_or};
ghost use Rattle.refusals.specs.Refusals.{answer_of};
ghost use Rattle.reader.specs.Read.{place_refusal};
ghost use Rattle.sets.specs.Sets.{count, members_to};
ghost use Rattle.near.specs.Near as near;
ghost use Rattle.near.specs.Parts as parts;

use linalg::Vec3;
use refusals::Refusal;

// The bytes of a record.
const SIZE: usize = 176;

// Stands for no place.
const NONE: u64 = 0xffff_ffff_ffff_ffff;

// The nearest fix of some records and its distance. Where none is found, its place is NONE.
#[derive(Clone, Copy)]
pub struct Held {
    pub found: bool,
    pub place: u64,
    pub distance: f64,
}

// Whether the reader takes the record at a place apart.
fn readable(file: &[u8], k: usize) -> bool
    ensures { result ≡ near.readable file.now k }
{
    match reader::find_record(file, k as u64) {
        Ok(record) => reader::check(record).is_ok(),
        Err(_) => false,
    }
}

// Whether the reader takes the records at the first n places apart.
fn all_readable(file: &[u8], n: usize) -> bool
    ensures { result ≡ near.readable_to file.now n }
{
    (0..n).all(|k| readable(file, k))
}

// Why the file is turned away: 16, then 18.
fn check_file(file: &[u8]) -> Result<(), Refusal>
    ensures { answer_of result ≡ near.file_refusal file.now }
{
    if file.len() % SIZE != 0 {
        return Err(Refusal::TornFile);
    }
    if !all_readable(file, file.len() / SIZE) {
        return Err(Refusal::MalformedRecord);
    }
    Ok(())
}

// The same, then 22 where the query is not good.
fn check_query(file: &[u8], good: bool) -> Result<(), Refusal>
    ensures { answer_of result ≡ near.query_refusal file.now good }
{
    check_file(file)?;
    if !good {
        return Err(Refusal::BadQuery);
    }
    Ok(())
}

// Whether a record is a fix.
fn is_fix(bytes: &[u8]) -> bool
    requires { length bytes.now ≡ 176 }
    ensures { result ≡ near.is_fix bytes.now }
{
    words::u32_at(bytes, 0) == 0
}

// How far the position of a fix is from the point.
fn distance(bytes: &[u8], point: Vec3) -> f64
    requires { length bytes.now ≡ 176 }
    ensures { result ≡ near.distance point bytes.now }
{
    let x = words::f64_at(bytes, 16);
    let y = words::f64_at(bytes, 24);
    let z = words::f64_at(bytes, 32);
    linalg::norm(linalg::sub([x, y, z], point))
}

// Whether a record is a fix within the radius.
#[tactic(auto, unfolding(crate::specs::Near::is_near))]
fn is_near(bytes: &[u8], point: Vec3, radius: f64) -> bool
    requires { length bytes.now ≡ 176 }
    ensures { result ≡ near.is_near point radius bytes.now }
{
    is_fix(bytes) && distance(bytes, point) <= radius
}

// Whether the record at a place is a fix within the radius.
fn near_at(file: &[u8], k: usize, point: Vec3, radius: f64) -> bool
    requires { place_refusal (length file.now) k ≡ 0 }
    ensures { result ≡ near.within file.now point radius k }
{
    is_near(reader::record_at(file, k as u64), point, radius)
}

// The places of the fixes within the radius, ascending, into `places`. Gives how many.
fn list(file: &[u8], n: usize, point: Vec3, radius: f64, places: &mut [u64]) -> u64
    requires { (length file.now ≡ 176 * n) × (n ≤ length places.old) }
    ensures { (result ≡ count (near.within file.now point radius) n)
        × (places.new ≡ members_to (near.within file.now point radius) places.old n) }
{
    let mut count = 0usize;
    for k in 0..n {
        if near_at(file, k, point, radius) {
            places[count] = k as u64;
            count += 1;
        }
    }
    count as u64
}

// The places, from 0, of the fixes of a file within the radius of the point, in file order, into `places`. Gives how
// many they are. 14 where fewer entries are lent than the file may have records, then 16 and 18 as the reader has them,
// then 22. A refusal changes nothing lent.
pub fn within(file: &[u8], point: Vec3, radius: f64, places: &mut [u64]) -> Result<u64, Refusal>
    ensures answer { answer_of result ≡ near.within_answer file.now point radius places.old }
    ensures list { places.new
        ≡ near.places_after file.now point radius places.old }
    ensures count { (found : ℕ) → result_unwrap_or result found
        ≡ near.count_after file.now point radius places.old found }
{
    let n = file.len() / SIZE;
    if places.len() < n {
        return Err(Refusal::ShortOutput);
    }
    check_query(file, query::good_query(point, radius))?;
    Ok(list(file, n, point, radius, places))
}

// The nearest fix, once a record at place k is looked at.
fn step(bytes: &[u8], k: usize, point: Vec3, held: Held) -> Held
    requires { length bytes.now ≡ 176 }
    ensures { result
        ≡ near.step (near.is_fix bytes.now) k (near.distance point bytes.now) held }
{
    if !is_fix(bytes) {
        return held;
    }
    let d = distance(bytes, point);
    let this = Held {
        found: true,
        place: k as u64,
        distance: d,
    };
    if !held.found {
        return this;
    }
    if d < held.distance {
        return this;
    }
    held
}

// The nearest of the fixes at the places up to k, from that of those before it.
fn nearest_to(file: &[u8], k: usize, point: Vec3, held: Held) -> Held
    requires { (place_refusal (length file.now) k ≡ 0) × (held ≡ near.held_to file.now point k) }
    ensures { result ≡ near.held_to file.now point (k + 1) }
{
    step(reader::record_at(file, k as u64), k, point, held)
}

// None so far.
fn none() -> Held
    ensures { result ≡ near.none_held }
{
    Held {
        found: false,
        place: NONE,
        distance: 0.0,
    }
}

// The nearest of n records.
fn hold(file: &[u8], n: usize, point: Vec3) -> Held
    requires { length file.now ≡ 176 * n }
    ensures { result ≡ near.held_to file.now point n }
{
    let mut held = none();
    for k in 0..n {
        let next = nearest_to(file, k, point, held);
        held = next;
    }
    held
}

// The place of the nearest fix, or NONE.
fn find(file: &[u8], n: usize, point: Vec3) -> u64
    requires { length file.now ≡ 176 * n }
    ensures { result ≡ near.place_of (near.nearest_to file.now point n) }
{
    let held = hold(file, n, point);
    held.place
}

// Why a search for the nearest is turned away: what `nearest` answers, without the search.
pub fn check_nearest(file: &[u8], point: Vec3) -> Result<(), Refusal>
    ensures { answer_of result ≡ near.nearest_answer file.now point }
{
    check_query(file, query::good_point(point))
}

// The place, from 0, of the fix of a file that is nearest to the point, the earliest of those at one distance; the
// greatest u64 where the file has no fix. 16 and 18 as the reader has them, then 22.
pub fn nearest(file: &[u8], point: Vec3) -> Result<u64, Refusal>
    ensures answer { answer_of result ≡ near.nearest_answer file.now point }
    ensures place { (found : ℕ) → result_unwrap_or result found
        ≡ near.place_after file.now point found }
{
    check_nearest(file, point)?;
    Ok(find(file, file.len() / SIZE, point))
}

// The nearest fix of a part of a file, with its distance; none where the part is not whole records.
pub fn nearest_in(part: &[u8], point: Vec3) -> Held
    ensures { result ≡ parts.nearest_in part.now point }
{
    if part.len() % SIZE != 0 {
        return none();
    }
    hold(part, part.len() / SIZE, point)
}

// The nearest fix of two parts of a file, from those of the first, which has `base` records, and of the second.
pub fn join(first: Held, base: u64, second: Held) -> Held
    ensures { result ≡ parts.joined first base second }
{
    if !second.found {
        return first;
    }
    let this = Held {
        found: true,
        place: std::num::wrapping_add_u64(base, second.place),
        distance: second.distance,
    };
    if !first.found {
        return this;
    }
    if second.distance < first.distance {
        return this;
    }
    first
}
