// The rules that a record of 176 bytes meets: document 02, item 1.
ghost use Rattle.std.specs.Prelude.{◌≡◌, ◌+◌, ◌*◌, ◌≤◌, length};
ghost use Rattle.binary64.specs.Steps.{#, is_finite};
ghost use Rattle.reader.specs.Tests as tests;
ghost use Rattle.std.specs.Result.{result_map_both};
ghost use Rattle.reader.specs.Read.{read_of, content_at};

use refusals::Refusal;

// The sign bit of an f64, and the bits of infinity.
const SIGN: u64 = 0x8000_0000_0000_0000;

const INFINITY: u64 = 0x7ff0_0000_0000_0000;

// Whether the bytes from k on are zero, so many of them. None is left out where one is not: a loop without a way out
// takes many bytes at a time.
pub fn zeros(s: &[u8], k: usize, count: usize) -> bool
    requires { k + count ≤ length s.now }
    ensures { result ≡ tests.zeros s.now k count }
{
    let mut good = true;
    for byte in &s[k..k + count] {
        good = good & (*byte == 0);
    }
    good
}

// Whether the f64 with these bits is finite.
fn finite_bits(bits: u64) -> bool
    ensures { result ≡ is_finite (# bits) }
{
    bits % SIGN < INFINITY
}

// Whether the f64 from byte k on are finite, so many of them.
fn finite(s: &[u8], k: usize, count: usize) -> bool
    requires { k + 8 * count ≤ length s.now }
    ensures { result ≡ tests.finite s.now k count }
{
    (0..count).all(|i| finite_bits(words::u64_at(s, k + 8 * i)))
}

fn good_answer(answer: u32) -> bool
    ensures { result ≡ tests.good_answer answer }
{
    answer <= 13 || answer == 15
}

#[tactic(auto, unfolding(crate::specs::Tests::good_detail))]
fn good_detail(answer: u32, detail: u32) -> bool
    ensures { result ≡ tests.good_detail answer detail }
{
    if answer == 1 {
        return detail <= 3;
    }
    if answer == 11 {
        return 1 <= detail && detail <= 31;
    }
    if answer == 12 {
        return detail <= 31 || 100 <= detail && detail <= 131 || detail == 200;
    }
    detail == 0
}

// A refusal from 10 on shows no n.
#[tactic(auto, unfolding(crate::specs::Tests::good_n))]
pub fn good_n(answer: u32, n: u32) -> bool
    ensures { result ≡ tests.good_n answer n }
{
    if answer <= 9 {
        return n <= 32;
    }
    n <= 0
}

fn good_mask(mask: u32, n: u32) -> bool
    requires { n ≤ 32 }
    ensures { result ≡ tests.good_mask mask n }
{
    (mask as u64) < (1u64 << n)
}

// Document 01: dof is the used receptions, plus one with altitude, less 4.
#[tactic(auto, unfolding(crate::specs::Tests::good_dof))]
fn good_dof(mask: u32, kind: u8, detail: u32) -> bool
    ensures { result ≡ tests.good_dof mask kind detail }
{
    let used = sets::count(mask) as u64;
    let due = detail as u64 + 4;
    if kind == 0 {
        return due == used + 0;
    }
    due == used + 1
}

// ECEF, the transmit time and the position; the covariance and chi-square; the altitude metres.
#[tactic(auto, unfolding(crate::specs::Tests::good_floats))]
fn good_floats(s: &[u8]) -> bool
    requires { length s.now ≡ 176 }
    ensures { result ≡ tests.good_floats s.now }
{
    finite(s, 16, 7) && finite(s, 80, 10) && finite(s, 168, 1)
}

// Where there is no altitude, its metres are zero bytes.
#[tactic(auto, unfolding(crate::specs::Tests::good_metres))]
fn good_metres(s: &[u8], kind: u8) -> bool
    requires { length s.now ≡ 176 }
    ensures { result ≡ tests.good_metres kind s.now }
{
    kind != 0 || zeros(s, 168, 8)
}

#[tactic(auto, unfolding(crate::specs::Tests::good_fix))]
fn good_fix(s: &[u8]) -> bool
    requires { length s.now ≡ 176 }
    ensures { result ≡ tests.good_fix s.now }
{
    let n = words::u32_at(s, 8);
    let mask = words::u32_at(s, 12);
    let kind = s[162];
    n <= 32
        && words::u16_at(s, 160) == 8
        && kind <= 2
        && good_floats(s)
        && good_mask(mask, n)
        && good_dof(mask, kind, words::u32_at(s, 4))
        && zeros(s, 163, 5)
        && good_metres(s, kind)
}

#[tactic(auto, unfolding(crate::specs::Tests::good_refusal))]
fn good_refusal(s: &[u8]) -> bool
    requires { length s.now ≡ 176 }
    ensures { result ≡ tests.good_refusal s.now }
{
    let answer = words::u32_at(s, 0);
    let detail = words::u32_at(s, 4);
    let n = words::u32_at(s, 8);
    good_answer(answer) && good_detail(answer, detail) && good_n(answer, n) && zeros(s, 12, 164)
}

// Whether a record meets the rules.
#[tactic(auto, unfolding(crate::specs::Tests::meets_rules))]
pub fn meets_rules(s: &[u8]) -> bool
    requires { length s.now ≡ 176 }
    ensures { result ≡ tests.meets_rules s.now }
{
    if words::u32_at(s, 0) == 0 {
        return good_fix(s);
    }
    good_refusal(s)
}

// Why a record is not taken apart: 16 where it is not 176 bytes long, 18 where it breaks a rule.
#[tactic(auto, unfolding(crate::specs::Read::read_of))]
pub fn check(bytes: &[u8]) -> Result<(), Refusal>
    ensures { read_of bytes.now
        ≡ result_map_both (λ _. content_at bytes.now) (λ why. why) result }
{
    if bytes.len() != 176 {
        return Err(Refusal::TornFile);
    }
    if !meets_rules(bytes) {
        return Err(Refusal::MalformedRecord);
    }
    Ok(())
}
