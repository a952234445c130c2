// Copyright (C) 1993 by Sun Microsystems, Inc. All rights reserved.
// Developed at SunSoft, a Sun Microsystems, Inc. business. Permission to use, copy, modify, and distribute this
// software is freely granted, provided that this notice is preserved.
//
// Sine and cosine on [-pi/4, pi/4]: k_sin.c and k_cos.c of fdlibm 5.3.
ghost use Rattle.std.specs.Prelude.{◌≡◌, ◌≤◌};
ghost use Rattle.libm.specs.Kernels.{k_sin, k_cos, qx};

use crate::words::{high, word};

// k_sin.c: the coefficients of its polynomial
const S1: f64 = -1.66666666666666324348e-01;

const S2: f64 = 8.33333333332248946124e-03;

const S3: f64 = -1.98412698298579493134e-04;

const S4: f64 = 2.75573137070700676789e-06;

const S5: f64 = -2.50507602534068634195e-08;

const S6: f64 = 1.58969099521155010221e-10;

// k_cos.c: the coefficients of its polynomial
const C1: f64 = 4.16666666666666019037e-02;

const C2: f64 = -1.38888888888741095749e-03;

const C3: f64 = 2.48015872894767294178e-05;

const C4: f64 = -2.75573143513906633035e-07;

const C5: f64 = 2.08757232129817482790e-09;

const C6: f64 = -1.13596475577881948265e-11;

// The sine of x + y, y the tail of x; iy is 0 where there is no tail.
pub fn k_sin(x: f64, y: f64, iy: u64) -> f64
    ensures { result ≡ k_sin x y iy }
{
    // |x| < 2^-27
    if high(x) < 0x3e40_0000 {
        return x;
    }
    let z = x * x;
    let v = z * x;
    let r = S2 + z * (S3 + z * (S4 + z * (S5 + z * S6)));
    if iy == 0 {
        return x + v * (S1 + z * r);
    }
    x - ((z * (0.5 * y - v * r) - y) - v * S1)
}

// About |x| / 4, for an x with the high word ix: what the cosine takes from 1 and from x * x / 2, so
// that both differences are exact.
fn qx(ix: u64) -> f64
    requires { 0x3fd3_3333 ≤ ix }
    ensures { result ≡ qx ix }
{
    // |x| > 0.78125
    if ix > 0x3fe9_0000 {
        return 0.28125;
    }
    word(ix - 0x0020_0000)
}

// The cosine of x + y, y the tail of x.
pub fn k_cos(x: f64, y: f64) -> f64
    ensures { result ≡ k_cos x y }
{
    let ix = high(x);
    // |x| < 2^-27
    if ix < 0x3e40_0000 {
        return 1.0;
    }
    let z = x * x;
    let r = z * (C1 + z * (C2 + z * (C3 + z * (C4 + z * (C5 + z * C6)))));
    // |x| < 0.3
    if ix < 0x3fd3_3333 {
        return 1.0 - (0.5 * z - (z * r - x * y));
    }
    let q = qx(ix);
    let hz = 0.5 * z - q;
    let a = 1.0 - q;
    a - (hz - (z * r - x * y))
}
