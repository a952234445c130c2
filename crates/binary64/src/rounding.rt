// Rounding an f64 to a whole number, a half away from zero, from the bits of its argument.
ghost use Rattle.std.specs.Prelude.{◌≡◌, ◌/◌, ◌%◌, ◌^◌, ◌<◌, ◌≤◌, Bool};
ghost use Rattle.std.specs.Float.{binary64};
ghost use Rattle.std.specs.Float.Ieee.{of_fields};
ghost use Rattle.std.specs.Float.Ieee as Ieee;
ghost use Rattle.binary64.specs.Rounding.{half_away};

use crate::{DIGITS, LEAD, SIGN};

// The bits of 2^52, from which on every f64 is a whole number.
const WHOLE: u64 = 0x4330_0000_0000_0000;

// The whole number nearest to the magnitude with these bits, which is below 2^52: a half goes up.
fn whole(rest: u64) -> u64
    requires { rest < 0x4330_0000_0000_0000 }
    ensures { (result ≤ 2 ^ 53) × ((s : Bool) → half_away (of_fields binary64 s (rest / 2 ^ 52) (rest % 2 ^ 52))
        ≡ Ieee.round binary64 s result 1) }
{
    let e = rest >> 52;
    if e < 1022 {
        return 0;
    }
    // the magnitude is m * 2^(e - 1075), and a half is 2^k of these units
    let m = (rest & DIGITS) + LEAD;
    let k = 1074 - e;
    (m + (1 << k)) >> (k + 1)
}

// The nearest whole number, a half away from zero, with the sign of x: Rust's `f64::round`.
// Infinities and not-a-numbers pass.
pub fn round(x: f64) -> f64
    ensures { result ≡ half_away x }
{
    if x != x {
        return x;
    }
    let bits = f64::to_bits(x);
    let rest = bits % SIGN;
    if rest >= WHOLE {
        return x;
    }
    let q = whole(rest) as f64;
    if bits < SIGN {
        return q;
    }
    -q
}
