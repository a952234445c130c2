// The radius of curvature in the prime vertical, which is A / (1.0 - E2 * sin_lat * sin_lat).sqrt().
// The argument of that root lies little below 1, where a series finds the root sooner than
// `binary64::sqrt` does. What the series gives is checked exactly, and `sqrt` serves where it fails.
ghost use Rattle.std.specs.Prelude.{◌≡◌, ◌*◌, ◌^◌, ◌<◌, true};
ghost use Rattle.binary64.specs.Root.{root};
ghost use Rattle.binary64.specs.Held.{Nearest};
ghost use Rattle.geo.specs.Geo.{prime_vertical};
ghost use Rattle.geo.specs.Held.{BelowOne};

use crate::{A, E2};

// A value from 1/2 up to 1 that is m times 2^-53 has the bits OFFSET + m.
const OFFSET: u64 = 0x3fd0_0000_0000_0000;

// How many times 2^-53 is x, where x lies from 1/2 up to 1, and 0 where it does not.
fn below_one(x: f64) -> u64
    ensures { 0 < result → BelowOne x result }
{
    if x != x {
        return 0;
    }
    let bits = f64::to_bits(x);
    // the bits of 1/2
    if bits < 0x3fe0_0000_0000_0000 {
        return 0;
    }
    // the bits of 1
    if bits >= 0x3ff0_0000_0000_0000 {
        return 0;
    }
    bits - OFFSET
}

// Whether r is the whole number nearest to the root of m * 2^53: whether m * 2^53 lies between
// (r - 1/2)^2 and (r + 1/2)^2, multiplied out.
fn nearest(m: u64, r: u64) -> bool
    requires { (m < 2 ^ 53) × (r < 2 ^ 53) }
    ensures { result ≡ true → Nearest (m * 2 ^ 53) r }
{
    let side = r as u128;
    let square = side * side;
    let number = m as u128 * 0x20_0000_0000_0000;
    number <= square + side && square < number + side
}

// The root of u, which is s if s is the nearest.
fn root_at(u: f64, s: f64) -> f64
    ensures { result ≡ root u }
{
    let m = below_one(u);
    let r = below_one(s);
    if m > 0 {
        if r > 0 {
            if nearest(m, r) {
                return s;
            }
        }
    }
    binary64::sqrt(u)
}

// A number near the root of u, which is 1 - w but for rounding, by the binomial series
// 1 - w/2 - w^2/8 - w^3/16 - 5w^4/128 - 7w^5/256 - 21w^6/1024 - .. Its last factor here is a little
// greater, for what is left out. Nothing is promised of how near it is: only the time that
// `prime_vertical` takes turns on it.
fn guess(u: f64, w: f64) -> f64 {
    let w2 = w * w;
    let w4 = w2 * w2;
    let low = w2 * (0.125 + 0.0625 * w);
    let high = w4 * ((0.0390625 + 0.02734375 * w) + 0.0206 * w2);
    u + ((0.5 * (1.0 - u) - low) - high)
}

pub fn prime_vertical(sin_lat: f64) -> f64
    ensures { result ≡ prime_vertical sin_lat }
{
    let w = E2 * sin_lat * sin_lat;
    let u = 1.0 - w;
    A / root_at(u, guess(u, w))
}
