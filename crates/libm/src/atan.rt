// Copyright (C) 1993 by Sun Microsystems, Inc. All rights reserved.
// Developed at SunSoft, a Sun Microsystems, Inc. business. Permission to use, copy, modify, and distribute this
// software is freely granted, provided that this notice is preserved.
//
// The arc tangent: s_atan.c and e_atan2.c of fdlibm 5.3.
ghost use Rattle.std.specs.Prelude.{◌≡◌, if◌then◌else◌, nat_lt};
ghost use Rattle.binary64.specs.Steps.{◌⊖◌, ◌⊗◌, abs};
ghost use Rattle.libm.specs.Atan.{series, reduce, atan, signs, quarter, x_inf, quotient, atan2};

use crate::words::{high, negative, signed, switch};

// s_atan.c: atanhi[] and atanlo[], the arc tangents of 0.5, 1, 1.5 and infinity in two parts
const ATANHI0: f64 = 4.63647609000806093515e-01;

const ATANHI1: f64 = 7.85398163397448278999e-01;

const ATANHI2: f64 = 9.82793723247329054082e-01;

const ATANHI3: f64 = 1.57079632679489655800e+00;

const ATANLO0: f64 = 2.26987774529616870924e-17;

const ATANLO1: f64 = 3.06161699786838301793e-17;

const ATANLO2: f64 = 1.39033110312309984516e-17;

const ATANLO3: f64 = 6.12323399573676603587e-17;

// s_atan.c: aT[], the coefficients of its polynomial
const AT0: f64 = 3.33333333333329318027e-01;

const AT1: f64 = -1.99999999998764832476e-01;

const AT2: f64 = 1.42857142725034663711e-01;

const AT3: f64 = -1.11111104054623557880e-01;

const AT4: f64 = 9.09088713343650656196e-02;

const AT5: f64 = -7.69187620504482999495e-02;

const AT6: f64 = 6.66107313738753120669e-02;

const AT7: f64 = -5.83357013379057348645e-02;

const AT8: f64 = 4.97687799461593236017e-02;

const AT9: f64 = -3.65315727442169155270e-02;

const AT10: f64 = 1.62858201153657823623e-02;

// e_atan2.c: its constants
const TINY: f64 = 1.0e-300;

const PI_O_4: f64 = 7.8539816339744827900e-01;

const PI_O_2: f64 = 1.5707963267948965580e+00;

const PI: f64 = 3.1415926535897931160e+00;

const PI_LO: f64 = 1.2246467991473531772e-16;

// s1 + s2, the odd and the even terms
fn series(x: f64) -> f64
    ensures { result ≡ series x }
{
    let z = x * x;
    let w = z * z;
    let s1 = z * (AT0 + w * (AT2 + w * (AT4 + w * (AT6 + w * (AT8 + w * AT10)))));
    let s2 = w * (AT1 + w * (AT3 + w * (AT5 + w * (AT7 + w * AT9))));
    s1 + s2
}

// An arc hi + lo whose tangent is known, and the tangent x of the rest.
#[derive(Clone, Copy)]
pub struct Arc {
    pub hi: f64,
    pub lo: f64,
    pub x: f64,
}

// The argument reduction of an x from 7/16 up to 2^66 with the high word ix.
fn reduce(x: f64, ix: u64) -> Arc
    ensures { result ≡ reduce x ix }
{
    // x < 19/16
    if ix < 0x3ff3_0000 {
        // x < 11/16
        if ix < 0x3fe6_0000 {
            return Arc {
                hi: ATANHI0,
                lo: ATANLO0,
                x: (2.0 * x - 1.0) / (2.0 + x),
            };
        }
        return Arc {
            hi: ATANHI1,
            lo: ATANLO1,
            x: (x - 1.0) / (x + 1.0),
        };
    }
    // x < 39/16
    if ix < 0x4003_8000 {
        return Arc {
            hi: ATANHI2,
            lo: ATANLO2,
            x: (x - 1.5) / (1.0 + 1.5 * x),
        };
    }
    Arc {
        hi: ATANHI3,
        lo: ATANLO3,
        x: -1.0 / x,
    }
}

// The arc tangent of an x within 7/16, whose high word is ix.
fn small(x: f64, ix: u64) -> f64
    ensures { result ≡ (if nat_lt ix 0x3e20_0000 then x else (x ⊖ x ⊗ series x)) }
{
    // |x| < 2^-29
    if ix < 0x3e20_0000 {
        return x;
    }
    x - x * series(x)
}

// The arc of a reduction with the rest, whose tangent is p.x.
fn whole_arc(p: Arc) -> f64
    ensures { result ≡ p.hi ⊖ ((p.x ⊗ series p.x ⊖ p.lo) ⊖ p.x) }
{
    p.hi - ((p.x * series(p.x) - p.lo) - p.x)
}

// The arc tangent of x.
fn atan(x: f64) -> f64
    ensures { result ≡ atan x }
{
    let ix = high(x);
    // |x| >= 2^66
    if ix >= 0x4410_0000 {
        if x != x {
            return x + x;
        }
        if negative(x) {
            return -ATANHI3 - ATANLO3;
        }
        return ATANHI3 + ATANLO3;
    }
    // |x| < 7/16
    if ix < 0x3fdc_0000 {
        return small(x, ix);
    }
    let z = whole_arc(reduce(binary64::abs(x), ix));
    signed(x, z)
}

// The arc tangent of an a whose sign is not set: what `atan` does, without the magnitude and the sign.
fn atan_unsigned(a: f64) -> f64
    requires { abs a ≡ a }
    ensures { result ≡ atan a }
{
    let ia = high(a);
    // a >= 2^66
    if ia >= 0x4410_0000 {
        if a != a {
            return a + a;
        }
        return ATANHI3 + ATANLO3;
    }
    // a < 7/16
    if ia < 0x3fdc_0000 {
        return small(a, ia);
    }
    whole_arc(reduce(a, ia))
}

// m, 2 * sign(x) + sign(y)
fn signs(y: f64, x: f64) -> u64
    ensures { result ≡ signs y x }
{
    if negative(x) {
        if negative(y) {
            return 3;
        }
        return 2;
    }
    if negative(y) {
        return 1;
    }
    0
}

// A quarter turn with the sign of y.
fn quarter(y: f64) -> f64
    ensures { result ≡ quarter y }
{
    if negative(y) {
        return -PI_O_2 - TINY;
    }
    PI_O_2 + TINY
}

// Where x is an infinity, for the signs m and the high word of y.
fn x_inf(m: u64, iy: u64) -> f64
    ensures { result ≡ x_inf m iy }
{
    if iy == 0x7ff0_0000 {
        return switch(
            m,
            PI_O_4 + TINY,
            -PI_O_4 - TINY,
            3.0 * PI_O_4 + TINY,
            -3.0 * PI_O_4 - TINY,
        );
    }
    switch(m, 0.0, -1.0 * 0.0, PI + TINY, -PI - TINY)
}

// The arc tangent of |y / x|: a quarter turn beyond 2^60, and 0 below 2^-60 where x is negative.
fn quotient(y: f64, x: f64) -> f64
    ensures { result ≡ quotient y x }
{
    let iy = high(y);
    let ix = high(x);
    if iy >= ix + 0x3d0_0000 {
        return PI_O_2 + 0.5 * PI_LO;
    }
    if negative(x) && iy + 0x3c0_0000 < ix {
        return 0.0;
    }
    let q = y / x;
    // the magnitude of a number above 0 is itself, and takes no time
    if q > 0.0 {
        return atan_unsigned(q);
    }
    atan_unsigned(binary64::abs(q))
}

// The angle of the point (x, y), from -pi to pi.
pub fn atan2(y: f64, x: f64) -> f64
    ensures { result ≡ atan2 y x }
{
    if x != x {
        return x + y;
    }
    if y != y {
        return x + y;
    }
    if x == 1.0 {
        return atan(y);
    }
    let m = signs(y, x);
    if y == 0.0 {
        return switch(m, y, y, PI + TINY, -PI - TINY);
    }
    if x == 0.0 {
        return quarter(y);
    }
    if high(x) == 0x7ff0_0000 {
        return x_inf(m, high(y));
    }
    if high(y) == 0x7ff0_0000 {
        return quarter(y);
    }
    let z = quotient(y, x);
    switch(m, z, -z, PI - (z - PI_LO), (z - PI_LO) - PI)
}
