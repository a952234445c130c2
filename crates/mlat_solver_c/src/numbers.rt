// Numbers: root, rounding and the five of fdlibm, for callers in C.
ghost use Rattle.std.specs.Prelude.{◌≡◌, [], ◌∷◌};
ghost use Rattle.binary64.specs.Root.{root};
ghost use Rattle.binary64.specs.Rounding.{half_away};
ghost use Rattle.libm.specs.Trig.{sin, cos};
ghost use Rattle.libm.specs.Atan.{atan2};
ghost use Rattle.libm.specs.Hypotenuse.{hypot};
ghost use Rattle.mlat_solver.specs.Display.{IsBounded, AreBounded};
ghost use Rattle.mlat_solver.specs.Meaning.{IsRoot, IsRounded};

// The binary64 nearest the exact square root, ties to even. -0 gives -0, any other negative number
// a not-a-number.
#[unsafe(no_mangle)]
pub extern "C" fn mlat_sqrt(x: f64) -> f64
    ensures value { result ≡ root x }
    ensures meaning { IsRoot x result }
{
    mlat_solver::mlat_sqrt(x)
}

// The nearest whole number, a half away from zero, with the sign of x. Infinities and not-a-numbers
// pass.
#[unsafe(no_mangle)]
pub extern "C" fn mlat_round(x: f64) -> f64
    ensures value { result ≡ half_away x }
    ensures meaning { IsRounded x result }
{
    mlat_solver::mlat_round(x)
}

// The sine of an angle within ±7 by the steps of fdlibm 5.3: from -1 to 1, ends included. A not-a-number
// for any other.
#[unsafe(no_mangle)]
pub extern "C" fn mlat_sin(x: f64) -> f64
    ensures value { result ≡ sin x }
    ensures meaning { IsBounded x result }
{
    mlat_solver::mlat_sin(x)
}

// The cosine of an angle within ±7 by the steps of fdlibm 5.3: from -1 to 1, ends included. A not-a-number
// for any other.
#[unsafe(no_mangle)]
pub extern "C" fn mlat_cos(x: f64) -> f64
    ensures value { result ≡ cos x }
    ensures meaning { IsBounded x result }
{
    mlat_solver::mlat_cos(x)
}

// Both together: the sine, then the cosine.
#[unsafe(no_mangle)]
pub extern "C" fn mlat_sincos(x: f64, pair: &mut [f64; 2])
    ensures value { pair.new ≡ sin x ∷ cos x ∷ [] }
    ensures meaning { AreBounded x pair.new }
{
    mlat_solver::mlat_sincos(x, pair);
}

// The angle of (x, y) from the x axis, by the steps of fdlibm 5.3.
#[unsafe(no_mangle)]
pub extern "C" fn mlat_atan2(y: f64, x: f64) -> f64
    ensures { result ≡ atan2 y x }
{
    mlat_solver::mlat_atan2(y, x)
}

// The length of (x, y), by the steps of fdlibm 5.3.
#[unsafe(no_mangle)]
pub extern "C" fn mlat_hypot(x: f64, y: f64) -> f64
    ensures { result ≡ hypot x y }
{
    mlat_solver::mlat_hypot(x, y)
}
