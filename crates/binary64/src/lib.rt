// What binary64 needs beyond the language's operators: the square root and rounding that IEEE 754
// and document 01 name, and the small functions that the solver's parts share.
#![tactic(auto)]

mod rounding;
mod square_root;

ghost use Rattle.std.specs.Prelude.{◌≡◌};
ghost use Rattle.std.specs.Float.{binary64};
ghost use Rattle.std.specs.Float.Ieee.{to_bits};
ghost use Rattle.binary64.specs.Steps.{#, abs, is_finite, max_of};

pub use rounding::round;
pub use square_root::{roots, sqrt, sqrt_near};

// The bits of an f64: the sign, eleven of the exponent, and the 52 binary digits below the leading
// one, which is left out. SIGN is also the bits of -0, and LEAD the place of the leading digit.
const SIGN: u64 = 0x8000_0000_0000_0000;

const INFINITY: u64 = 0x7ff0_0000_0000_0000;

const LEAD: u64 = 0x10_0000_0000_0000;

const DIGITS: u64 = 0xf_ffff_ffff_ffff;

// The value with these bits, for every bits: those of a not-a-number give the one that counts.
pub fn from_bits(bits: u64) -> f64
    ensures { result ≡ # bits }
{
    std::num::f64_from_bits_with_nan(bits)
}

// The bits of x, for every x: a not-a-number's are 7FF8000000000000.
pub fn to_bits(x: f64) -> u64
    ensures { result ≡ to_bits binary64 x }
{
    std::num::f64_to_bits_with_nan(x)
}

// The magnitude: `f64::abs`, which clears the sign.
pub fn abs(x: f64) -> f64
    ensures { result ≡ abs x }
{
    x.abs()
}

// The second unless the first is greater, as document 01 has `max`: 1e-12 for a not-a-number and
// 1e-12, and 0 for -0 and 0. Of -0 and 0 the library's may be either, which `max_of` does not allow.
pub fn max(a: f64, b: f64) -> f64
    ensures { result ≡ max_of a b }
{
    if b < a {
        return a;
    }
    b
}

// Whether x is a number and no infinity: `f64::is_finite`.
pub fn is_finite(x: f64) -> bool
    ensures { result ≡ is_finite x }
{
    x.is_finite()
}
