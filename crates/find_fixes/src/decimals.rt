// Numbers as people write them: digits with a point among them or none, a minus in front or none.
ghost use Rattle.std.specs.Prelude.{◌≡◌, if◌then◌else◌};
ghost use Rattle.std.specs.Float.Ieee.{neg};
ghost use Rattle.find_fixes.specs.Decimals as decimals;

use std::rt::Env;

// With fewer than this there is room for a digit more. A whole number of 15 digits is one that an f64 holds, and so is
// a power of ten below that, so that their quotient is the f64 nearest to the decimal.
const MOST: u64 = 100_000_000_000_000;

// What is read of a decimal: `whole` / `scale`. There was a digit where it has `some`.
#[derive(Clone, Copy)]
struct Digits {
    some: bool,
    point: bool,
    whole: u64,
    scale: u64,
}

// The digits and a point: there is one at the most.
fn pointed(d: Digits) -> Option<Digits>
    ensures { result ≡ decimals.pointed d }
{
    if d.point {
        return None;
    }
    Some(Digits { point: true, ..d })
}

// The digits and one more byte, if that is good.
fn next(d: Digits, byte: u8) -> Option<Digits>
    ensures { result ≡ decimals.next d byte }
{
    if byte == b'.' {
        return pointed(d);
    }
    if byte < b'0' {
        return None;
    }
    if byte > b'9' {
        return None;
    }
    if d.whole >= MOST {
        return None;
    }
    if d.scale >= MOST {
        return None;
    }
    let whole = 10 * d.whole + (byte - b'0') as u64;
    let scale = if d.point { 10 * d.scale } else { d.scale };
    Some(Digits {
        some: true,
        point: d.point,
        whole,
        scale,
    })
}

// The digits of the text, if each of its bytes is good.
fn digits_of(text: &[u8]) -> Option<Digits>
    ensures { result ≡ decimals.digits_of decimals.begun text.now }
{
    let mut d = Digits {
        some: false,
        point: false,
        whole: 0,
        scale: 1,
    };
    for byte in text {
        d = next(d, *byte)?;
    }
    Some(d)
}

fn signed(size: f64, minus: bool) -> f64
    ensures { result ≡ (if minus then neg size else size) }
{
    if minus {
        return -size;
    }
    size
}

// The number that digits are, if there are any.
fn value(d: Digits, minus: bool) -> Option<f64>
    ensures { result ≡ decimals.value_of d minus }
{
    let size = std::num::nearest_u64_to_f64(d.whole) / std::num::nearest_u64_to_f64(d.scale);
    let value = signed(size, minus);
    if d.some {
        return Some(value);
    }
    None
}

// The number that the text is; none where it is none, or has over 15 digits.
fn parsed(text: &[u8]) -> Option<f64>
    ensures { result ≡ decimals.number_of text.now }
{
    if text.len() == 0 {
        return None;
    }
    if text[0] == b'-' {
        return value(digits_of(&text[1..])?, true);
    }
    value(digits_of(text)?, false)
}

// The number that argument i is.
pub(crate) fn number_at(rt: &impl Env, i: usize) -> Option<f64> {
    let mut text = [0u8; 64];
    let n = host::arg(rt, i, &mut text);
    parsed(&text[..n])
}
