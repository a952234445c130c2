// Fix records in the archive's form, with six covariance entries for nine: document 02, item 7. `to_archive` moves a
// record of 176 bytes to one of 152, `from_archive` moves it back. Bytes are copied as they are.
#![tactic(auto)]

ghost use Rattle.std.specs.Prelude.{◌≡◌, ◌+◌, ◌≤◌, length, drop};
ghost use Rattle.std.proofs.Math.Seq.{paste};
ghost use Rattle.refusals.specs.Refusals.{answer_of};
ghost use Rattle.archive.specs.Forms as forms;
ghost use Rattle.archive.specs.Moves as moves;

use refusals::Refusal;

// The bytes of a record in the old form and in the new.
const OLD: usize = 176;

const NEW: usize = 152;

// Copies the bytes of s from byte `at` on, so many of them, over those of `to` from byte k on.
fn copy(s: &[u8], at: usize, count: usize, to: &mut [u8], k: usize)
    requires { (at + count ≤ length s.now) × (k + count ≤ length to.old) }
    ensures { to.new ≡ paste to.old k (drop at s.now) count }
{
    to[k..k + count].copy_from_slice(&s[at..at + count]);
}

// The new form of a record in the old one: of each row the entries from the diagonal on.
fn new_form(s: &[u8]) -> [u8; 152]
    requires { length s.now ≡ 176 }
    ensures { result ≡ forms.new_form s.now }
{
    let mut a = [0u8; 152];
    copy(s, 0, 80, &mut a, 0);
    copy(s, 80, 24, &mut a, 80);
    copy(s, 112, 16, &mut a, 104);
    copy(s, 144, 8, &mut a, 120);
    copy(s, 152, 24, &mut a, 128);
    a
}

// The old form of a record in the new one: left of the diagonal stand the mirrored entries.
fn old_form(a: &[u8]) -> [u8; 176]
    requires { length a.now ≡ 152 }
    ensures { result ≡ forms.old_form a.now }
{
    let mut s = [0u8; 176];
    copy(a, 0, 80, &mut s, 0);
    copy(a, 80, 24, &mut s, 80);
    copy(a, 88, 8, &mut s, 104);
    copy(a, 104, 16, &mut s, 112);
    copy(a, 96, 8, &mut s, 128);
    copy(a, 112, 8, &mut s, 136);
    copy(a, 120, 8, &mut s, 144);
    copy(a, 128, 24, &mut s, 152);
    s
}

// Whether mirrored entries have equal bits. As floats -0 and 0 would be equal.
#[tactic(auto, unfolding(crate::specs::Moves::equal_mirror))]
fn equal_mirror(s: &[u8]) -> bool
    requires { length s.now ≡ 176 }
    ensures { result ≡ moves.equal_mirror s.now }
{
    words::u64_at(s, 88) == words::u64_at(s, 104)
        && words::u64_at(s, 96) == words::u64_at(s, 128)
        && words::u64_at(s, 120) == words::u64_at(s, 136)
}

// Moves a record of 176 bytes to the first 152 of the output: 14 where that is shorter, then the reader's 16 and 18,
// then 20 where mirrored entries differ.
pub fn to_archive(bytes: &[u8], out: &mut [u8]) -> Result<(), Refusal>
    ensures answer { answer_of result ≡ moves.to_archive_answer bytes.now out.old }
    ensures output { out.new ≡ moves.to_archive_output bytes.now out.old }
{
    if out.len() < NEW {
        return Err(Refusal::ShortOutput);
    }
    reader::check(bytes)?;
    if !equal_mirror(bytes) {
        return Err(Refusal::UnequalMirror);
    }
    let moved = new_form(bytes);
    copy(&moved, 0, NEW, out, 0);
    Ok(())
}

// Moves a record of 152 bytes back, to the first 176 of the output: 14 where that is shorter, then 16 where the record
// has another length, and 18 where the reader does not take its old form apart.
pub fn from_archive(bytes: &[u8], out: &mut [u8]) -> Result<(), Refusal>
    ensures answer { answer_of result ≡ moves.from_archive_answer bytes.now out.old }
    ensures output { out.new ≡ moves.from_archive_output bytes.now out.old }
{
    if out.len() < OLD {
        return Err(Refusal::ShortOutput);
    }
    if bytes.len() != NEW {
        return Err(Refusal::TornFile);
    }
    let old = old_form(bytes);
    reader::check(&old)?;
    record::store(out, old);
    Ok(())
}
