// What a fix claims: the limit of its chi-square, and its covariance in the local frame, for callers in C.
ghost use Rattle.std.specs.Prelude.{◌≡◌};
ghost use Rattle.limits.specs.Limits.{chi2_limit};
ghost use Rattle.limits.specs.Local.{enu_covariance, horizontal_sigma_m};
ghost use Rattle.mlat_solver.specs.Lent.{geodetic_of, nine_of, rows_of};

use crate::geodesy::{geodetic, nine};

// The chi-square value that the residuals of an exact optimum with so many degrees of freedom may
// reach; 0 for none.
pub fn mlat_chi2_limit(dof: u32) -> f64
    ensures { result ≡ chi2_limit dof }
{
    limits::chi2_limit(dof)
}

// Nine numbers as three rows of three.
fn rows(nine: &[f64; 9]) -> [[f64; 3]; 3]
    ensures { result ≡ rows_of nine.now }
{
    [
        [nine[0], nine[1], nine[2]],
        [nine[3], nine[4], nine[5]],
        [nine[6], nine[7], nine[8]],
    ]
}

// An ECEF covariance in the local east, north, up frame at the position, row by row.
pub fn mlat_enu_covariance(position: &[f64; 3], covariance: &[f64; 9], enu: &mut [f64; 9])
    ensures { enu.new ≡ nine_of
        (enu_covariance (geodetic_of position.now) (rows_of covariance.now)) }
{
    *enu = nine(limits::enu_covariance(geodetic(position), rows(covariance)));
}

// One standard deviation of the horizontal position, metres.
pub fn mlat_horizontal_sigma_m(position: &[f64; 3], covariance: &[f64; 9]) -> f64
    ensures { result ≡ horizontal_sigma_m (geodetic_of position.now) (rows_of covariance.now) }
{
    limits::horizontal_sigma_m(geodetic(position), rows(covariance))
}
