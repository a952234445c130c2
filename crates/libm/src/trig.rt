// Copyright (C) 1993 by Sun Microsystems, Inc. All rights reserved.
// Developed at SunSoft, a Sun Microsystems, Inc. business. Permission to use, copy, modify, and distribute this
// software is freely granted, provided that this notice is preserved.
//
// Sine and cosine: s_sin.c and s_cos.c of fdlibm 5.3, for angles within ±7.
ghost use Rattle.std.specs.Prelude.{◌≡◌};
ghost use Rattle.libm.specs.Trig.{quadrant, sin, cos};

use crate::kernels::{k_cos, k_sin};
use crate::rem_pio2::{LIMIT, Reduced, rem_pio2};
use crate::words::{high, signed};

// The sine of n * pi/2 + y: s_sin.c's `switch(n&3)`.
fn sin_of(y: Reduced) -> f64
    ensures { result ≡ (quadrant y).sin }
{
    let n = y.n % 4;
    if n == 0 {
        return k_sin(y.y0, y.y1, 1);
    }
    if n == 1 {
        return k_cos(y.y0, y.y1);
    }
    if n == 2 {
        return -k_sin(y.y0, y.y1, 1);
    }
    -k_cos(y.y0, y.y1)
}

// The cosine of n * pi/2 + y: s_cos.c's `switch(n&3)`.
fn cos_of(y: Reduced) -> f64
    ensures { result ≡ (quadrant y).cos }
{
    let n = y.n % 4;
    if n == 0 {
        return k_cos(y.y0, y.y1);
    }
    if n == 1 {
        return -k_sin(y.y0, y.y1, 1);
    }
    if n == 2 {
        return -k_cos(y.y0, y.y1);
    }
    k_sin(y.y0, y.y1, 1)
}

// The sine of x; not-a-number beyond ±7.
pub fn sin(x: f64) -> f64
    ensures { result ≡ sin x }
{
    // |x| up to pi/4
    if high(x) <= 0x3fe9_21fb {
        return k_sin(x, 0.0, 0);
    }
    let t = binary64::abs(x);
    if t <= LIMIT {
        return signed(x, sin_of(rem_pio2(t)));
    }
    0.0 / 0.0
}

// The cosine of x; not-a-number beyond ±7.
pub fn cos(x: f64) -> f64
    ensures { result ≡ cos x }
{
    // |x| up to pi/4
    if high(x) <= 0x3fe9_21fb {
        return k_cos(x, 0.0);
    }
    let t = binary64::abs(x);
    if t <= LIMIT {
        return cos_of(rem_pio2(t));
    }
    0.0 / 0.0
}

// The sine and the cosine of one angle.
#[derive(Clone, Copy)]
pub struct SinCos {
    pub sin: f64,
    pub cos: f64,
}
