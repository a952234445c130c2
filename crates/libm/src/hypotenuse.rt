// Copyright (C) 1993 by Sun Microsystems, Inc. All rights reserved.
// Developed at SunSoft, a Sun Microsystems, Inc. business. Permission to use, copy, modify, and distribute this
// software is freely granted, provided that this notice is preserved.
//
// The length of (x, y): e_hypot.c of fdlibm 5.3.
ghost use Rattle.std.specs.Prelude.{◌≡◌, ◌/◌, ◌^◌, ◌<◌, ◌≤◌, cond, nat_lt};
ghost use Rattle.binary64.specs.Steps.{#};
ghost use Rattle.libm.specs.Hypotenuse.{inf_or_nan, medium, scaled, hypot};

use crate::words::{high, word};

// The powers of two that e_hypot.c scales by: 2^600, 2^-600, 2^1022 and 2^-1022.
const TWO_600: f64 = 4.149515568880993e180;

const TWO_M600: f64 = 2.409919865102884e-181;

const TWO_1022: f64 = 4.49423283715579e307;

const TWO_M1022: f64 = 2.2250738585072014e-308;

// The sign's bit.
const SIGN: u64 = 0x8000_0000_0000_0000;

// Where a or b is an infinity or a not-a-number.
fn inf_or_nan(a: f64, b: f64) -> f64
    ensures { result ≡ inf_or_nan a b }
{
    let infinity = 1.0 / 0.0;
    if b == infinity {
        return b;
    }
    if a == infinity {
        return a;
    }
    a + b
}

// a and b of medium size, and what stands for their high words. `near` is about a * a + b * b, for the time
// that the root takes alone.
fn medium(a: f64, b: f64, ha: u64, hb: u64, near: f64) -> f64
    requires { (ha < 0x7fe0_0000) × (hb < 0x7fe0_0000) }
    ensures { result ≡ medium a b ha hb }
{
    let w = a - b;
    if w > b {
        let t1 = word(ha);
        let t2 = a - t1;
        return binary64::sqrt_near(t1 * t1 - (b * -b - t2 * (a + t1)), near);
    }
    let c = a + a;
    let y1 = word(hb);
    let y2 = b - y1;
    let t1 = word(ha + 0x0010_0000);
    let t2 = c - t1;
    binary64::sqrt_near(t1 * y1 - (w * -w - (t1 * y2 + t2 * b)), near)
}

// a and b, both scaled, and what stands for their high words.
fn rescaled(a: f64, b: f64, ha: u64, hb: u64) -> f64
    requires { (ha < 0x7fe0_0000) × (hb < 0x7fe0_0000) }
    ensures { result ≡ medium a b ha hb }
{
    medium(a, b, ha, hb, a * a + b * b)
}

// a and b without their signs, and their high words, of which ha is not the lesser; and what is about
// a * a + b * b.
fn scaled(a: f64, b: f64, ha: u64, hb: u64, near: f64) -> f64
    requires { hb ≤ ha }
    ensures { result ≡ scaled a b ha hb }
{
    // a / b > 2^60
    if ha - hb > 0x3c0_0000 {
        return a + b;
    }
    // a > 2^500
    if ha > 0x5f30_0000 {
        if ha >= 0x7ff0_0000 {
            return inf_or_nan(a, b);
        }
        return TWO_600
            * rescaled(
                a * TWO_M600,
                b * TWO_M600,
                ha - 0x2580_0000,
                hb - 0x2580_0000,
            );
    }
    // b < 2^-500
    if hb < 0x20b0_0000 {
        // b is subnormal or 0; e_hypot.c leaves ha and hb as they are
        if hb <= 0x000f_ffff {
            if b == 0.0 {
                return a;
            }
            return TWO_M1022 * rescaled(a * TWO_1022, b * TWO_1022, ha, hb);
        }
        return TWO_M600 * rescaled(a * TWO_600, b * TWO_600, ha + 0x2580_0000, hb + 0x2580_0000);
    }
    medium(a, b, ha, hb, near)
}

// The values with the bits p and q, which have no sign, set in order by their high words.
fn ordered(p: u64, q: u64, near: f64) -> f64
    requires { (p ≤ 0x7ff0_0000_0000_0000) × (q ≤ 0x7ff0_0000_0000_0000) }
    ensures { result ≡ cond (nat_lt (p / 2 ^ 32) (q / 2 ^ 32)) (scaled (# q) (# p) (q / 2 ^ 32) (p / 2 ^ 32))
        (scaled (# p) (# q) (p / 2 ^ 32) (q / 2 ^ 32)) }
{
    let hp = p / 0x1_0000_0000;
    let hq = q / 0x1_0000_0000;
    if hq > hp {
        return scaled(f64::from_bits(q), f64::from_bits(p), hq, hp, near);
    }
    scaled(f64::from_bits(p), f64::from_bits(q), hp, hq, near)
}

// The length of (x, y) by their high words, whatever x and y are.
fn by_words(x: f64, y: f64) -> f64
    ensures { result ≡ hypot x y }
{
    let ha = high(x);
    let hb = high(y);
    if hb > ha {
        return scaled(binary64::abs(y), binary64::abs(x), hb, ha, 0.0);
    }
    scaled(binary64::abs(x), binary64::abs(y), ha, hb, 0.0)
}

// The length of (x, y).
pub fn hypot(x: f64, y: f64) -> f64
    ensures { result ≡ hypot x y }
{
    let near = x * x + y * y;
    // neither is a not-a-number
    if near >= 0.0 {
        return ordered(f64::to_bits(x) % SIGN, f64::to_bits(y) % SIGN, near);
    }
    by_words(x, y)
}
