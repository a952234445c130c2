// The square root of an f64, from the bits of its argument; and of several at once.
ghost use Rattle.std.specs.Prelude.{◌≡◌, ℕ, ◌+◌, ◌*◌, ◌/◌, ◌^◌, ◌<◌, ◌≤◌, get_or, length};
ghost use Rattle.std.specs.Float.{nan, binary64};
ghost use Rattle.std.specs.Float.Ieee.{of_bits};
ghost use Rattle.binary64.specs.Root.{root, root_units};
ghost use Rattle.binary64.specs.Held.{roots_to, Nearest};

use crate::{DIGITS, INFINITY, LEAD, SIGN};

// 2^53, which a root of 53 binary digits may round up to.
const MOST: u64 = 0x20_0000_0000_0000;

// (r * r + r) / 2^52, cut to a whole number. No type holds r * r, so it is taken by digits of 26
// binary digits.
fn above(r: u64) -> u64
    requires { r ≤ 2 ^ 53 }
    ensures { result ≡ (r * r + r) / 2 ^ 52 }
{
    let a = r >> 26;
    let b = r & 0x3ff_ffff;
    a * a + ((2 * a * b + ((b * b + r) >> 26)) >> 26)
}

// 0 only where r is the whole number nearest to the root of m * 2^52: above(r - 1) < m <= above(r),
// from one square and without a branch.
fn far(m: u64, r: u64) -> u64
    requires { (m < 2 ^ 54) × (2 ^ 52 ≤ r) × (r ≤ 2 ^ 53) }
    ensures { result ≡ 0 → Nearest (m * 2 ^ 52) r }
{
    let a = r >> 26;
    let b = r & 0x3ff_ffff;
    let aa = a * a;
    let ab = 2 * a * b;
    let bb = b * b;
    let most = aa + ((ab + ((bb + r) >> 26)) >> 26);
    // 2^54 keeps the difference from going below zero, and is 4 after the shifts
    let least = aa + ((ab + ((bb + (0x40_0000_0000_0000 - r)) >> 26)) >> 26);
    // the first reaches 2^62 where most < m, the second where m + 4 <= least
    let over = 0x3fff_ffff_ffff_ffff + m - most;
    let under = 0x3fff_ffff_ffff_fffc + least - m;
    (over | under) >> 62
}

// The whole number nearest to the root of m * 2^52, by halving the range that it lies in.
fn bisect(m: u64) -> u64
    requires { (2 ^ 52 ≤ m) × (m < 2 ^ 54) }
    ensures { Nearest (m * 2 ^ 52) result }
{
    // 2^52 - 1 is too small, and 2^53 is not
    let mut low = DIGITS;
    let mut high = MOST;
    while high - low > 1 {
        let mid = (low + high) / 2;
        if above(mid) < m {
            low = mid;
        } else {
            high = mid;
        }
    }
    high
}

// The bits of the root of m * 2^p units, where the unit's root is one too.
fn root_of(m: u64, p: u64) -> u64
    requires bound { (2 ^ 52 ≤ m) × (m < 2 ^ 53) }
    requires le_p { (52 ≤ p) × (p ≤ 3119) }
    ensures { (result < 0x7ff0_0000_0000_0000) × (of_bits binary64 result ≡ root_units (m * 2 ^ p)) }
{
    let half = (p - 52) / 2;
    let r = bisect(m << (p % 2));
    half * LEAD + r
}

// The bits of the root of the value with these bits, which is finite and above zero.
fn root_bits(bits: u64) -> u64
    requires { (0 < bits) × (bits < 0x7ff0_0000_0000_0000) }
    ensures { (result < 0x7ff0_0000_0000_0000) × (of_bits binary64 result ≡ root (of_bits binary64 bits)) }
{
    let e = bits >> 52;
    if e > 0 {
        return root_of((bits & DIGITS) + LEAD, e + 1073);
    }
    let mut m = bits;
    let mut k = 0u64;
    while m < LEAD {
        m = 2 * m;
        k += 1;
    }
    root_of(m, 1074 - k)
}

// The root of x by its bits and `bisect` alone.
fn halved(x: f64) -> f64
    ensures { result ≡ root x }
{
    if x != x {
        return x;
    }
    let bits = f64::to_bits(x);
    if bits > SIGN {
        return 0.0 / 0.0;
    }
    if bits == SIGN {
        return x;
    }
    if bits >= INFINITY {
        return x;
    }
    if bits == 0 {
        return x;
    }
    f64::from_bits(root_bits(bits))
}

// A number near the root of x, from one near x, which has these bits. Nothing is promised of how near it
// is, and only the time that a root takes turns on it: of a normal x, and `near` within 1 part in 10^12 of
// it, it is the root all but once in some thousands.
fn guess(x: f64, near: f64, bits: u64) -> f64
    requires { bits < 2 ^ 63 }
{
    // 1 / the root of x, within 1 part in 7, then in 1,500, then in 3 million: two of Newton's steps,
    //     y1 = 1.681914 * y0 - 0.703952253 * x * y0^3, y = 1.5000004725 * y1 - 0.5000001575 * x * y1^3,
    // their factors chosen to make the greatest error over all x least. z1 and z are y1 and y over such
    // constants that x has no factor: y = 0.17442139308438256 * z
    let z0 = f64::from_bits(0x5fe4_0000_0000_0000 - (bits >> 1));
    let z1 = 2.3892444307582887 * z0 - (near * z0) * (z0 * z0);
    let z = 6.053894499091614 * z1 - (near * z1) * (z1 * z1);
    // the root of x is g / the root of (1 - e) with g = x * y and e = 1 - g * y, which is, to the second
    // order in e, g + (x - g * g) * y * (0.5 + 0.375 * e)
    let g = (0.17442139308438256 * near) * z;
    let slope = z * (0.15261871894883475 - 0.011408558387061262 * (g * z));
    // x - g * g, exactly: adding 3 * 2^26 times the power of two below g and taking it off leaves g's
    // upper binary digits in `top`
    let big = f64::from_bits(((bits + LEAD) >> 53) * LEAD + 0x21a8_0000_0000_0000);
    let top = (g + big) - big;
    let rest = (x - top * top) - (g + top) * (g - top);
    g + rest * slope
}

// The bits of x where it is 0 or more, and 0 where it is less or a not-a-number.
fn bits_of(x: f64) -> u64
    ensures { 0 < result → of_bits binary64 result ≡ x }
{
    if x >= 0.0 {
        return f64::to_bits(x);
    }
    0
}

// 0 only where b are the bits of the root of the value with these bits, if that is normal: where the
// exponent is the root's, and the binary digits, with the leading one, are the whole number nearest to
// the root of the value's.
fn off(bits: u64, b: u64) -> u64
    ensures { result ≡ 0 → 2 ^ 52 ≤ bits → bits < 0x7ff0_0000_0000_0000
        → (0 < b) × (of_bits binary64 b ≡ root (of_bits binary64 bits)) }
{
    let e = (bits >> 52) + 1021;
    let m = (bits & DIGITS) + LEAD;
    let r = (b & DIGITS) + LEAD;
    ((b >> 52) ^ (e / 2 + 1)) | far(m + m * (e % 2), r)
}

// IEEE 754's square root: the binary64 nearest the exact root, ties to even. -0 gives -0, any other
// negative number a not-a-number, infinity infinity. Of a normal x it is the guess, which whole
// numbers only check, so that nothing waits for them.
pub fn sqrt(x: f64) -> f64
    ensures { result ≡ root x }
{
    if x != x {
        return x;
    }
    let bits = f64::to_bits(x);
    if bits >= LEAD {
        if bits < INFINITY {
            let s = guess(x, x, bits);
            if off(bits, bits_of(s)) == 0 {
                return s;
            }
        }
    }
    halved(x)
}

// A guess of each root: nothing is promised of it, but that the rest of out stays.
fn guesses(d: &[f64; 32], k: usize, out: &mut [f64; 32])
    requires { k ≤ 32 }
    ensures { (length out.new ≡ length out.old)
        × ((i : ℕ) → k ≤ i → get_or out.new i nan ≡ get_or out.old i nan) }
{
    for i in 0..k {
        let x = d[i];
        out[i] = guess(x, x, bits_of(x) % SIGN);
    }
}

// 0 only where s is the root of x.
fn unlike(x: f64, s: f64) -> u64
    ensures { result ≡ 0 → s ≡ root x }
{
    let bits = bits_of(x);
    // 0 where x lies from 2^-511 up to 2^513, so that it is normal
    let outside = (((bits >> 52) + 512) >> 10) ^ 1;
    outside | off(bits, bits_of(s))
}

// The root of x where a number near x is known before x is: what a guess waits for is `near`. Whatever
// `near` is, this is the root of x.
pub fn sqrt_near(x: f64, near: f64) -> f64
    ensures { result ≡ root x }
{
    let s = guess(x, near, bits_of(near) % SIGN);
    if unlike(x, s) == 0 {
        return s;
    }
    sqrt(x)
}

// 0 only where out has the roots of the first k of d.
fn wrong(d: &[f64; 32], k: usize, out: &[f64; 32]) -> u64
    requires { k ≤ 32 }
    ensures { result ≡ 0 → (i : ℕ) → i < k → get_or out.now i nan ≡ root (get_or d.now i nan) }
{
    let mut bad = 0u64;
    for i in 0..k {
        bad = bad | unlike(d[i], out[i]);
    }
    bad
}

// The roots of the first k of d, one by one.
fn each(d: &[f64; 32], k: usize, out: &mut [f64; 32])
    requires { k ≤ 32 }
    ensures { out.new ≡ roots_to d.now out.old k }
{
    for i in 0..k {
        out[i] = sqrt(d[i]);
    }
}

// The roots of the first k of d, into out. The guesses and their checks have no branch, so that the
// processor takes several side by side; where any fails, each root is taken by itself.
pub fn roots(d: &[f64; 32], k: usize, out: &mut [f64; 32])
    requires { k ≤ 32 }
    ensures { out.new ≡ roots_to d.now out.old k }
{
    guesses(d, k, &mut *out);
    if wrong(d, k, &*out) > 0 {
        each(d, k, &mut *out);
    }
}
