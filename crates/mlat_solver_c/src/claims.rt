// What a fix claims: the limit of its chi-square, and its covariance in the local frame, for callers in C.
ghost use Rattle.std.specs.Prelude.{◌≡◌};
ghost use Rattle.limits.specs.Limits.{chi2_limit};
ghost use Rattle.limits.specs.Local.{enu_covariance, horizontal_sigma_m};
ghost use Rattle.mlat_solver.specs.Lent.{geodetic_of, nine_of, rows_of};

// The chi-square value that the residuals of an exact optimum with so many degrees of freedom may
// reach; 0 for none.
#[unsafe(no_mangle)]
pub extern "C" fn mlat_chi2_limit(dof: u32) -> f64
    ensures { result ≡ chi2_limit dof }
{
    mlat_solver::mlat_chi2_limit(dof)
}

// An ECEF covariance in the local east, north, up frame at the position, row by row.
#[unsafe(no_mangle)]
pub extern "C" fn mlat_enu_covariance(
    position: &[f64; 3],
    covariance: &[f64; 9],
    enu: &mut [f64; 9],
)
    ensures { enu.new ≡ nine_of
        (enu_covariance (geodetic_of position.now) (rows_of covariance.now)) }
{
    mlat_solver::mlat_enu_covariance(position, covariance, enu);
}

// One standard deviation of the horizontal position, metres.
#[unsafe(no_mangle)]
pub extern "C" fn mlat_horizontal_sigma_m(position: &[f64; 3], covariance: &[f64; 9]) -> f64
    ensures { result ≡ horizontal_sigma_m (geodetic_of position.now) (rows_of covariance.now) }
{
    mlat_solver::mlat_horizontal_sigma_m(position, covariance)
}
