// Fix records read back: document 02, item 1. `find_record` and `record_at` hand out the caller's own bytes of a file,
// `read` takes a record apart, and `write` puts it together again.
#![tactic(auto)]

mod content;
mod fields;
mod rules;

ghost use Rattle.std.specs.Prelude.{◌≡◌, length, IfOk};
ghost use Rattle.refusals.specs.Refusals.{answer_of};
ghost use Rattle.reader.specs.Read as reads;

pub use content::Content;
pub use fields::altitude_of;
use refusals::Refusal;
pub use rules::check;

// The bytes of a record.
const SIZE: usize = 176;

// The caller's own 176 bytes of the record at a place, from 0: 16 where the file is torn, 17 where it ends before.
pub fn find_record(file: &[u8], place: u64) -> Result<&[u8], Refusal>
    ensures answer { answer_of result ≡ reads.place_refusal (length file.now) place }
    ensures bytes { IfOk result (λ r. r.now ≡ reads.record_at file.now place) }
{
    let size = file.len();
    if size % SIZE != 0 {
        return Err(Refusal::TornFile);
    }
    if (size / SIZE) as u64 <= place {
        return Err(Refusal::NoSuchPlace);
    }
    let at = SIZE * place as usize;
    let end = at + SIZE;
    Ok(&file[at..end])
}

// The same; none of the bytes where it is refused.
pub fn record_at(file: &[u8], place: u64) -> &[u8]
    ensures { result.now ≡ reads.record_at file.now place }
{
    match find_record(file, place) {
        Ok(record) => record,
        Err(_) => &file[..0],
    }
}

// A record taken apart: 16 where it is not 176 bytes long, 18 where it breaks a rule.
pub fn read(bytes: &[u8]) -> Result<Content, Refusal>
    ensures { result ≡ reads.read_of bytes.now }
{
    check(bytes)?;
    Ok(fields::content_at(bytes))
}

// The bytes of what was read.
#[tactic(auto, unfolding(crate::specs::Read::bytes_of))]
fn bytes_of(v: Content) -> [u8; 176]
    ensures { result ≡ reads.bytes_of v }
{
    if v.answer == 0 {
        let altitude = v.altitude;
        let fix = v.fix;
        return record::fix(v.n, altitude, fix);
    }
    record::refusal(v.answer, v.detail, v.n)
}

// Whether nothing stands beside a refusal.
#[tactic(auto, unfolding(crate::specs::Read::alone))]
fn alone(v: Content) -> bool
    ensures { result ≡ reads.alone v }
{
    let altitude = v.altitude;
    let fix = v.fix;
    let bytes = record::fix(0, altitude, fix);
    rules::zeros(&bytes, 0, 160) && rules::zeros(&bytes, 161, 15)
}

// Whether a read gives this value, from its bytes.
#[tactic(auto, unfolding(crate::specs::Read::readable))]
fn readable(v: Content, bytes: [u8; 176]) -> bool
    requires { bytes ≡ reads.bytes_of v }
    ensures { result ≡ reads.readable v }
{
    let good = rules::meets_rules(&bytes);
    if v.answer == 0 {
        let fix = v.fix;
        return good && v.detail == fix.dof;
    }
    good && rules::good_n(v.answer, v.n) && alone(v)
}

// What was read, as bytes again, into the first 176 of the output: 14 where it is shorter, 18 for a
// value that no read gives.
pub fn write(v: Content, out: &mut [u8]) -> Result<(), Refusal>
    ensures answer { answer_of result ≡ reads.write_answer v out.old }
    ensures output { out.new ≡ reads.write_output v out.old }
{
    if out.len() < SIZE {
        return Err(Refusal::ShortOutput);
    }
    let bytes = bytes_of(v);
    if !readable(v, bytes) {
        return Err(Refusal::MalformedRecord);
    }
    record::store(out, bytes);
    Ok(())
}
