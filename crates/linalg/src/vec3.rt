// Vectors of three.
ghost use Rattle.std.specs.Prelude.{◌≡◌};
ghost use Rattle.linalg.specs.Vec3.{sub, dot, norm, scale, add};

pub type Vec3 = [f64; 3];

pub fn sub(a: Vec3, b: Vec3) -> Vec3
    ensures { result ≡ sub a b }
{
    [a[0] - b[0], a[1] - b[1], a[2] - b[2]]
}

pub fn dot(a: Vec3, b: Vec3) -> f64
    ensures { result ≡ dot a b }
{
    a[0] * b[0] + a[1] * b[1] + a[2] * b[2]
}

pub fn norm(a: Vec3) -> f64
    ensures { result ≡ norm a }
{
    binary64::sqrt(dot(a, a))
}

pub fn scale(a: Vec3, k: f64) -> Vec3
    ensures { result ≡ scale a k }
{
    [a[0] * k, a[1] * k, a[2] * k]
}

pub fn add(a: Vec3, b: Vec3) -> Vec3
    ensures { result ≡ add a b }
{
    [a[0] + b[0], a[1] + b[1], a[2] + b[2]]
}
