// Fix records, for callers in C: document 02, item 1.
ghost use Rattle.std.specs.Prelude.{◌≡◌, length};
ghost use Rattle.refusals.specs.Refusals.{answer_of};
ghost use Rattle.reader.specs.Read.{place_refusal, read_of};
ghost use Rattle.mlat_solver.specs.Records as held;

// Where the record at a place, from 0, begins in the caller's own file. 16 where the file is not whole
// records, then 17 where it ends before the place; then `at` stays.
#[unsafe(no_mangle)]
pub extern "C" fn mlat_record_at(file: &[u8], place: u64, at: &mut u64) -> u32
    ensures answer { result ≡ place_refusal (length file.now) place }
    ensures offset { at.new ≡ held.placed_at (length file.now) place at.old }
{
    mlat_solver::mlat_record_at(file, place, at)
}

// Takes a record of 176 bytes apart: 16 for another length, 18 where it breaks a rule.
#[unsafe(no_mangle)]
pub extern "C" fn mlat_read_record(
    bytes: &[u8],
    words: &mut [u32; 6],
    numbers: &mut [f64; 18],
    time: &mut i64,
) -> u32
    ensures answer { result ≡ answer_of (read_of bytes.now) }
    ensures words { words.new ≡ held.words_after (read_of bytes.now) words.old }
    ensures numbers { numbers.new
        ≡ held.numbers_after (read_of bytes.now) numbers.old }
    ensures time { time.new ≡ held.time_after (read_of bytes.now) time.old }
{
    mlat_solver::mlat_read_record(bytes, words, numbers, time)
}

// Puts a record together again in the first 176 bytes of `out`: 14 where it is shorter, then 18 for what
// `mlat_read_record` could not have given.
#[unsafe(no_mangle)]
pub extern "C" fn mlat_write_record(
    words: &[u32; 6],
    numbers: &[f64; 18],
    time: i64,
    out: &mut [u8],
) -> u32
    ensures answer { result ≡ held.record_answer words.now numbers.now time
        out.old }
    ensures output { out.new
        ≡ held.record_output words.now numbers.now time out.old }
{
    mlat_solver::mlat_write_record(words, numbers, time, out)
}
