// Copyright (C) 1993 by Sun Microsystems, Inc. All rights reserved.
// Developed at SunSoft, a Sun Microsystems, Inc. business. Permission to use, copy, modify, and distribute this
// software is freely granted, provided that this notice is preserved.
//
// An angle less a multiple of pi/2: e_rem_pio2.c of fdlibm 5.3, from pi/4 to 7.
ghost use Rattle.std.specs.Prelude.{◌≡◌};
ghost use Rattle.std.specs.Float.Ieee.{to_unsigned};
ghost use Rattle.libm.specs.RemPio2.{npio2_hw, lost, split, stage, medium, rem_pio2};

use crate::words::high;

// 2/pi; three parts of pi/2, of 33 binary digits each; and, with a T, the rest of pi/2 after each
const INVPIO2: f64 = 6.36619772367581382433e-01;

pub const PIO2_1: f64 = 1.57079632673412561417e+00;

pub const PIO2_1T: f64 = 6.07710050650619224932e-11;

const PIO2_2: f64 = 6.07710050630396597660e-11;

const PIO2_2T: f64 = 2.02226624879595063154e-21;

const PIO2_3: f64 = 2.02226624871116645580e-21;

const PIO2_3T: f64 = 8.47842766036889956997e-32;

// The limit that document 01 sets an angle.
pub const LIMIT: f64 = 7.0;

// An angle less n * pi/2, as y0 + y1: what fdlibm returns and its y[0] and y[1].
#[derive(Clone, Copy)]
pub struct Reduced {
    pub n: u64,
    pub y0: f64,
    pub y1: f64,
}

// What a stage leaves of the angle, r - w, before it is rounded.
#[derive(Clone, Copy)]
pub struct Rest {
    pub r: f64,
    pub w: f64,
}

// q cut to a whole number, as C's cast cuts it. Outside of u64 it is the nearest end, and 0 for a
// not-a-number.
fn whole(q: f64) -> u64
    ensures { result ≡ to_unsigned 64 q }
{
    if q > -1.0 {
        if q < 18446744073709551616.0 {
            return std::num::truncating_f64_to_u64(q);
        }
        return 0xffff_ffff_ffff_ffff;
    }
    0
}

// npio2_hw[n - 1], the high word of n * pi/2: an angle up to 7 has an n from 1 to 4.
fn npio2_hw(n: u64) -> u64
    ensures { result ≡ npio2_hw n }
{
    if n == 1 {
        return 0x3ff9_21fb;
    }
    if n == 2 {
        return 0x4009_21fb;
    }
    if n == 3 {
        return 0x4012_d97c;
    }
    0x4019_21fb
}

// How many powers of two y lies below x, fdlibm's i: 0 where it lies above.
fn lost(x: f64, y: f64) -> u64
    ensures { result ≡ lost x y }
{
    let j = high(x) / 0x10_0000;
    let k = high(y) / 0x10_0000;
    if k < j {
        return j - k;
    }
    0
}

// y[0] and y[1] of what is left, with n.
pub fn split(n: u64, r: f64, w: f64) -> Reduced
    ensures { result ≡ split n r w }
{
    let y0 = r - w;
    Reduced {
        n: n,
        y0: y0,
        y1: (r - y0) - w,
    }
}

// One stage more, for f times pi/2: the next part of pi/2 and the rest after it.
fn stage(t: f64, f: f64, part: f64, tail: f64) -> Rest
    ensures { result ≡ stage t f part tail }
{
    let w = f * part;
    let r = t - w;
    Rest {
        r: r,
        w: f * tail - ((t - r) - w),
    }
}

// From 3 pi/4 on.
fn medium(x: f64) -> Reduced
    ensures { result ≡ medium x }
{
    let n = whole(x * INVPIO2 + 0.5);
    let f = std::num::nearest_u64_to_f64(n);
    let r = x - f * PIO2_1;
    let w = f * PIO2_1T;
    if high(x) != npio2_hw(n) {
        return split(n, r, w);
    }
    if lost(x, r - w) <= 16 {
        return split(n, r, w);
    }
    let p = stage(r, f, PIO2_2, PIO2_2T);
    if lost(x, p.r - p.w) <= 49 {
        return split(n, p.r, p.w);
    }
    let q = stage(p.r, f, PIO2_3, PIO2_3T);
    split(n, q.r, q.w)
}

// Of |x|, above pi/4: for a negative x fdlibm turns the signs of n, y[0] and y[1].
pub fn rem_pio2(x: f64) -> Reduced
    ensures { result ≡ rem_pio2 x }
{
    let ix = high(x);
    // |x| < 3 pi/4
    if ix < 0x4002_d97c {
        let z = x - PIO2_1;
        // unless near pi/2
        if ix != 0x3ff9_21fb {
            return split(1, z, PIO2_1T);
        }
        return split(1, z - PIO2_2, PIO2_2T);
    }
    medium(x)
}
