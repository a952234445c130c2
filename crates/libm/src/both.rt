// Copyright (C) 1993 by Sun Microsystems, Inc. All rights reserved.
// Developed at SunSoft, a Sun Microsystems, Inc. business. Permission to use, copy, modify, and distribute this
// software is freely granted, provided that this notice is preserved.
//
// Sine and cosine together: one reduction and one call of each kernel for both.
ghost use Rattle.std.specs.Prelude.{◌≡◌, [], ◌∷◌};
ghost use Rattle.libm.specs.Trig.{sin, cos, sincos};

use crate::kernels::{k_cos, k_sin};
use crate::rem_pio2::{LIMIT, PIO2_1, PIO2_1T, rem_pio2, split};
use crate::trig::SinCos;
use crate::words::{high, signed, switch};

// The sine of x, then the cosine, into lent memory; not-a-numbers beyond ±7.
pub fn sincos_into(x: f64, pair: &mut [f64; 2])
    ensures { pair.new ≡ sin x ∷ cos x ∷ [] }
{
    let ix = high(x);
    // |x| up to pi/4
    if ix <= 0x3fe9_21fb {
        let s = k_sin(x, 0.0, 0);
        let c = k_cos(x, 0.0);
        *pair = [s, c];
        return;
    }
    // x up to 3 pi/4, not near pi/2, is its own magnitude and has n = 1: no waiting for either
    if x > 0.0 && ix < 0x4002_d97c && ix != 0x3ff9_21fb {
        let y = split(1, x - PIO2_1, PIO2_1T);
        let s = k_cos(y.y0, y.y1);
        let c = -k_sin(y.y0, y.y1, 1);
        *pair = [s, c];
        return;
    }
    let t = binary64::abs(x);
    if t <= LIMIT {
        let y = rem_pio2(t);
        let n = y.n % 4;
        let s = k_sin(y.y0, y.y1, 1);
        let c = k_cos(y.y0, y.y1);
        let sine = signed(x, switch(n, s, c, -s, -c));
        let cosine = switch(n, c, -s, -c, s);
        *pair = [sine, cosine];
        return;
    }
    *pair = [0.0 / 0.0, 0.0 / 0.0];
}

// The sine and the cosine of x.
pub fn sincos(x: f64) -> SinCos
    ensures { result ≡ sincos x }
{
    let mut pair = [0.0; 2];
    sincos_into(x, &mut pair);
    SinCos {
        sin: pair[0],
        cos: pair[1],
    }
}
