// One round of the outlier rule.
ghost use Rattle.std.specs.Prelude.{◌≡◌, ℕ, ◌^◌, ◌<◌, ◌≤◌, ℤ, IfOk};
ghost use Rattle.sets.specs.Mask.{has};
ghost use Rattle.geo.specs.Geo.{from_ecef};
ghost use Rattle.problem.specs.Problem.{position};
ghost use Rattle.best.specs.Held.{receptions};
ghost use Rattle.rounds.specs.Rounds as rounds;
ghost use Rattle.rounds.specs.declared.outliers.Turn.TheVariants.{Changes, Settles};
ghost use Rattle.rounds.specs.Solve.{setting_of};
ghost use Rattle.rounds.specs.Held.{previous_of, step_by, NormOf};

use crate::Refusal;
use crate::fitting::{State, fit_included};
use crate::outliers::{Turn, decided, residuals};
use damped::Fit;
use geo::Geodetic;
use problem::Altitude;

// What a round comes to, its best fit, and the fit's place and rounding norm.
#[derive(Clone, Copy)]
pub struct Step {
    pub turn: Turn,
    pub fit: Fit,
    pub place: Geodetic,
    pub norm: f64,
}

// A round over the included receptions.
pub fn round(
    site: &[f64; 96],
    z: &[f64; 32],
    noise: &[f64; 32],
    clock: &[f64; 1024],
    n: usize,
    altitude: Altitude,
    kept: u32,
    state: State,
) -> Result<Step, Refusal>
    requires { (n ≤ 32) × (state.included < 2 ^ n) }
    ensures by_index { (reference : ℤ) → step_by result
        ≡ rounds.round (setting_of (receptions site.now z.now noise.now
        clock.now n altitude) (has kept) reference) (has state.included) (previous_of state) }
    ensures within { IfOk result (λ s. (m : ℕ) → s.turn ≡ Changes m → m < 2 ^ n) }
    ensures place_value { IfOk result (λ s. s.turn ≡ Settles → (s.place ≡ from_ecef (position s.fit.params))
        × NormOf (receptions site.now z.now noise.now clock.now n altitude)
        (has state.included) s.fit s.norm) }
{
    let included = state.included;
    let count = sets::count(included);
    if count < problem::minimum(altitude) {
        return Err(Refusal::TooFew(count));
    }
    let best = fit_included(site, z, noise, clock, n, altitude, state)?;
    let left = residuals(site, z, noise, clock, n, best.fit.params);
    let turn = decided(kept, included, &left, n)?;
    Ok(Step {
        turn,
        fit: best.fit,
        place: best.place,
        norm: best.norm,
    })
}
