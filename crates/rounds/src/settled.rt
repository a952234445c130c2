// The steps of `solve_problem` after the rounds are settled.
ghost use Rattle.std.specs.Prelude.{◌≡◌, ◌-◌, ◌^◌, ◌<◌, ◌≤◌};
ghost use Rattle.sets.specs.Sets.{count};
ghost use Rattle.sets.specs.Mask.{has};
ghost use Rattle.geo.specs.Geo.{from_ecef};
ghost use Rattle.problem.specs.Problem.{position};
ghost use Rattle.limits.specs.Limits as limits;
ghost use Rattle.rounds.specs.Held.{as_result, NormOf};
ghost use Rattle.best.specs.OfProblem.{Receptions};
ghost use Rattle.rounds.specs.Solve.{has_altitude, later};

use crate::finish::{Unpublished, finish};
use damped::Fit;
use geo::Geodetic;
use problem::Altitude;
use record::Fix;

fn has_altitude(altitude: Altitude) -> bool
    ensures { result ≡ has_altitude altitude }
{
    match altitude {
        Altitude::None => false,
        Altitude::Barometric(metres) => true,
        Altitude::Gnss(metres) => true,
    }
}

fn less_four(rows: u32) -> u32
    ensures { result ≡ rows - 4 }
{
    if rows < 4 {
        return 0;
    }
    rows - 4
}

// The degrees of freedom: the used receptions, one more with an altitude, less 4.
fn dof(used: u32, altitude: Altitude) -> u32
    ensures { result ≡ limits.dof (count (has used) 32) (has_altitude altitude) }
{
    let count = sets::count(used);
    if has_altitude(altitude) {
        return less_four(count + 1);
    }
    less_four(count)
}

// The fix of the fit at which the rounds settled, whose place and rounding norm are known, or why it is not
// published.
pub fn settled(
    altitude: Altitude,
    reference_ps: i64,
    included: u32,
    fit: Fit,
    place: Geodetic,
    norm: f64,
) -> Result<Fix, Unpublished>
    requires { place ≡ from_ecef (position fit.params) }
    ensures { (R : Receptions) → R.n ≤ 32 → included < 2 ^ R.n → altitude ≡ R.altitude
        → NormOf R (has included) fit norm → result ≡ as_result (later R reference_ps (has included) fit) }
{
    let dof = dof(included, altitude);
    if fit.cost > limits::published_chi2_limit(dof, norm) {
        return Err(Unpublished::Inconsistent);
    }
    finish(included, dof, reference_ps, fit, place)
}
