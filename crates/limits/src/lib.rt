// Of solve.rs: the limits on a solution's height and on chi-square, the published covariance, and the
// covariance in the local frame.
#![tactic(auto)]

mod local;

ghost use Rattle.std.specs.Prelude.{◌≡◌, ◌<◌, ◌≤◌};
ghost use Rattle.limits.specs.Limits.{chi2_limit, moved, rounding_norm, published_chi2_limit};
ghost use Rattle.limits.specs.Local.{inflated, published_row, published};

pub use local::{enu_covariance, horizontal_sigma_m};

// Heights a solution may have, metres above the ellipsoid.
pub const MIN_HEIGHT_M: f64 = -1500.0;

pub const MAX_HEIGHT_M: f64 = 25_000.0;

// The chi-square test's tail probability is 10^-6; this is its standard normal quantile.
pub const CHI2_TAIL_Z: f64 = 4.753_424;

// The published position covariance is the solve's, its standard deviations times this, plus
// ERROR_FLOOR_M squared on each axis.
pub const ERROR_INFLATION: f64 = 1.1;

// The least one-axis standard deviation a fix claims, metres.
pub const ERROR_FLOOR_M: f64 = 5.0;

// ERROR_INFLATION and ERROR_FLOOR_M on one entry of a row and a column.
fn inflated(i: usize, j: usize, x: f64) -> f64
    ensures { result ≡ inflated i j x }
{
    let value = x * ERROR_INFLATION * ERROR_INFLATION;
    if i == j {
        return value + ERROR_FLOOR_M * ERROR_FLOOR_M;
    }
    value
}

// A row of the published covariance.
fn published_row(inverse: &[f64; 16], i: usize) -> [f64; 3]
    requires { i < 3 }
    ensures { result ≡ published_row inverse.now i }
{
    [
        inflated(i, 0, dense::at(inverse, 4, i, 0)),
        inflated(i, 1, dense::at(inverse, 4, i, 1)),
        inflated(i, 2, dense::at(inverse, 4, i, 2)),
    ]
}

// The published 3 x 3 position block of a solve's (X, T) covariance.
pub fn published(inverse: &[f64; 16]) -> [[f64; 3]; 3]
    ensures { result ≡ published inverse.now }
{
    [
        published_row(inverse, 0),
        published_row(inverse, 1),
        published_row(inverse, 2),
    ]
}

// The chi-square value the residuals of the exact optimum may reach (Wilson and Hilferty's, at
// CHI2_TAIL_Z). With no redundancy (`dof` 0) the optimum explains every reception exactly, so the
// limit is 0.
pub fn chi2_limit(dof: u32) -> f64
    ensures { result ≡ chi2_limit dof }
{
    if dof == 0 {
        return 0.0;
    }
    let k = dof as f64;
    let a = 2.0 / (9.0 * k);
    let base = 1.0 - a + CHI2_TAIL_Z * binary64::sqrt(a);
    k * (base * base * base)
}

// What writing a solution moves it by at most, metres: ROUNDING_M for each ECEF axis, and for the
// transmit time.
const ROUNDING_X_M: f64 = 7.9e-3 + 1e-6;

const ROUNDING_T_M: f64 = 1.5e-4 + 1e-6;

// How far that moves one whitened residual, at most: x, y, z and t are its derivatives.
fn moved(x: f64, y: f64, z: f64, t: f64) -> f64
    ensures { result ≡ moved x y z t }
{
    let on_x = 0.0 + binary64::abs(x) * ROUNDING_X_M;
    let on_y = on_x + binary64::abs(y) * ROUNDING_X_M;
    let on_z = on_y + binary64::abs(z) * ROUNDING_X_M;
    on_z + binary64::abs(t) * ROUNDING_T_M
}

// How far rounding a solution can move its whitened residuals together: the root of the sum of
// squares. The columns of the Jacobian are a to d.
pub fn rounding_norm(a: &[f64; 33], b: &[f64; 33], c: &[f64; 33], d: &[f64; 33], rows: usize) -> f64
    requires { rows ≤ 33 }
    ensures { result ≡ rounding_norm a.now b.now c.now d.now rows }
{
    let mut sum = 0.0;
    for k in 0..rows {
        let moved = moved(a[k], b[k], c[k], d[k]);
        sum = sum + moved * moved;
    }
    binary64::sqrt(sum)
}

// The chi-square a published solution may reach: the exact optimum's limit widened by what rounding
// can add, as the triangle inequality bounds the residual vector's length.
pub fn published_chi2_limit(dof: u32, rounding: f64) -> f64
    ensures { result ≡ published_chi2_limit dof rounding }
{
    let reach = binary64::sqrt(chi2_limit(dof)) + rounding;
    reach * reach
}
