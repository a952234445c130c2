// Copyright (C) 1993 by Sun Microsystems, Inc. All rights reserved.
// Developed at SunSoft, a Sun Microsystems, Inc. business. Permission to use, copy, modify, and distribute this
// software is freely granted, provided that this notice is preserved.
//
// Sine, cosine, both together, atan2 and hypot by the steps of fdlibm 5.3, Sun's freely
// distributable math library: the same binary64 operations in the same order, so the same bits.
// Functions, constants and variables have fdlibm's names, and each file says which of fdlibm's it
// follows.
#![tactic(auto)]

mod atan;
mod both;
mod hypotenuse;
mod kernels;
mod rem_pio2;
mod trig;
mod words;

pub use atan::atan2;
pub use both::{sincos, sincos_into};
pub use hypotenuse::hypot;
pub use trig::{SinCos, cos, sin};
