// Copyright (C) 1993 by Sun Microsystems, Inc. All rights reserved.
// Developed at SunSoft, a Sun Microsystems, Inc. business. Permission to use, copy, modify, and distribute this
// software is freely granted, provided that this notice is preserved.
//
// What fdlibm's functions share: the high word of an f64 and its sign, by which they test their
// arguments, and a `switch` of four cases.
ghost use Rattle.std.specs.Prelude.{◌≡◌, ◌≤◌};
ghost use Rattle.libm.specs.Words.{high, negative, signed, word, switch};

// The high word without the sign, fdlibm's `__HI(x) & 0x7fffffff`: 0x7ff00000 at an infinity, above
// that at a not-a-number.
pub fn high(x: f64) -> u64
    ensures { result ≡ high x }
{
    if x != x {
        return 0x7ff8_0000;
    }
    f64::to_bits(x) / 0x1_0000_0000 % 0x8000_0000
}

// Whether the sign is set, fdlibm's `__HI(x) < 0`: true of -0, false of a not-a-number.
pub fn negative(x: f64) -> bool
    ensures { result ≡ negative x }
{
    if x != x {
        return false;
    }
    0x8000_0000_0000_0000 <= f64::to_bits(x)
}

// z with its sign turned where x's is set: fdlibm's `(hx<0)? -z:z`.
pub fn signed(x: f64, z: f64) -> f64
    ensures { result ≡ signed x z }
{
    if negative(x) {
        return -z;
    }
    z
}

// The value with the high word h and the low word 0: fdlibm's `__HI(v) = h; __LO(v) = 0`.
pub fn word(h: u64) -> f64
    requires { h ≤ 0x7ff0_0000 }
    ensures { result ≡ word h }
{
    f64::from_bits(h * 0x1_0000_0000)
}

// The m-th of four, and the last for every m from 3 on.
pub fn switch(m: u64, a: f64, b: f64, c: f64, d: f64) -> f64
    ensures { result ≡ switch m a b c d }
{
    if m == 0 {
        return a;
    }
    if m == 1 {
        return b;
    }
    if m == 2 {
        return c;
    }
    d
}
