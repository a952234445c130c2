// The two methods of `Solution`: its covariance in the local frame, and what that says of the
// horizontal position.
ghost use Rattle.std.specs.Prelude.{◌≡◌};
ghost use Rattle.limits.specs.Local.{plus_row, between, local_row, enu_covariance, horizontal_sigma_m};

use geo::Geodetic;

// One turn of the loop over a, with x the basis's entry: the turns over b from `sum`.
fn plus_row(sum: f64, x: f64, row: [f64; 3], f: [f64; 3]) -> f64
    ensures { result ≡ plus_row sum x row f }
{
    sum + x * row[0] * f[0] + x * row[1] * f[1] + x * row[2] * f[2]
}

// The covariance of the components along e and f.
fn between(e: [f64; 3], covariance: [[f64; 3]; 3], f: [f64; 3]) -> f64
    ensures { result ≡ between e covariance f }
{
    let first = plus_row(0.0, e[0], covariance[0], f);
    let second = plus_row(first, e[1], covariance[1], f);
    plus_row(second, e[2], covariance[2], f)
}

// The covariances of the component along e with those along each of the basis.
fn local_row(e: [f64; 3], covariance: [[f64; 3]; 3], basis: [[f64; 3]; 3]) -> [f64; 3]
    ensures { result ≡ local_row e covariance basis }
{
    [
        between(e, covariance, basis[0]),
        between(e, covariance, basis[1]),
        between(e, covariance, basis[2]),
    ]
}

// The covariance in the local east, north, up frame at the position, metres squared.
pub fn enu_covariance(position: Geodetic, covariance: [[f64; 3]; 3]) -> [[f64; 3]; 3]
    ensures { result ≡ enu_covariance position covariance }
{
    let basis = geo::enu_basis(position.lat_deg, position.lon_deg);
    [
        local_row(basis[0], covariance, basis),
        local_row(basis[1], covariance, basis),
        local_row(basis[2], covariance, basis),
    ]
}

// One standard deviation of the horizontal position, metres: the root of half the trace of the
// east-north covariance.
pub fn horizontal_sigma_m(position: Geodetic, covariance: [[f64; 3]; 3]) -> f64
    ensures { result ≡ horizontal_sigma_m position covariance }
{
    let enu = enu_covariance(position, covariance);
    binary64::sqrt(binary64::max(0.5 * (enu[0][0] + enu[1][1]), 0.0))
}
