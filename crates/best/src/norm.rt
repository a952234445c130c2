// How far rounding a solution can move its whitened residuals together.
ghost use Rattle.std.specs.Prelude.{◌≡◌, ◌≤◌};
ghost use Rattle.geo.specs.Geo.{from_ecef};
ghost use Rattle.problem.specs.Problem.{position};
ghost use Rattle.whitening.specs.Held.{chosen};
ghost use Rattle.best.specs.Held.{norm_at};

use geo::Geodetic;
use problem::Altitude;

// The rounding norm of the rows at the parameters, whose place is known.
pub fn norm(
    sites: &[f64; 96],
    z: &[f64; 32],
    k: usize,
    l: &[f64; 1024],
    altitude: Altitude,
    params: [f64; 4],
    place: Geodetic,
) -> f64
    requires { (k ≤ 32) × (place ≡ from_ecef (position params)) }
    ensures { result ≡ norm_at (chosen k sites.now z.now l.now altitude) params }
{
    let row = whitening::row_place(altitude, place);
    let mut r = [0.0; 33];
    let mut a = [0.0; 33];
    let mut b = [0.0; 33];
    let mut c = [0.0; 33];
    let mut d = [0.0; 33];
    let rows = whitening::whitened(
        sites, z, k, l, altitude, params, row, &mut r, &mut a, &mut b, &mut c, &mut d,
    );
    limits::rounding_norm(&a, &b, &c, &d, rows)
}
