// The outlier rounds and their answer: `solve_problem` and `finish` of solve.rs.
#![tactic(auto)]

mod answer;
mod finish;
mod fitting;
mod moment;
mod outliers;
mod round;
mod settled;

ghost use Rattle.std.specs.Prelude.{◌≡◌, ℕ, ◌^◌, ◌<◌, ◌≤◌};
ghost use Rattle.sets.specs.Mask.{has};
ghost use Rattle.screen.specs.Screen as screen;
ghost use Rattle.best.specs.Held.{receptions};
ghost use Rattle.rounds.specs.Rounds.{outlier_rounds};
ghost use Rattle.rounds.specs.Solve.{setting_of, kept_at, solve_problem};
ghost use Rattle.rounds.specs.Unmoved.{capped};
ghost use Rattle.rounds.specs.Held.{as_answer};

pub use answer::Refusal;
use fitting::State;
use outliers::Turn;
pub use outliers::residuals;
use problem::{Altitude, Problem};
use record::Fix;
use round::round;
use settled::settled;

// The outlier rule under a cap on rounds, from 0 up: no fixed point where that many each made a change. Each round
// starts from the last one's fit.
fn outlier_rounds(
    site: &[f64; 96],
    z: &[f64; 32],
    noise: &[f64; 32],
    clock: &[f64; 1024],
    n: usize,
    altitude: Altitude,
    reference: i64,
    kept: u32,
    cap: u32,
) -> Result<Fix, Refusal>
    requires { (n ≤ 32) × (kept < 2 ^ n) }
    ensures { result ≡ as_answer (capped
        (setting_of (receptions site.now z.now noise.now clock.now n
        altitude) (has kept) reference) cap) }
{
    let mut state = State {
        included: kept,
        previous: None,
    };
    for k in 0..cap {
        let step = round(site, z, noise, clock, n, altitude, kept, state)?;
        let fit = step.fit;
        match step.turn {
            Turn::Changes(included) => {
                state = State {
                    included,
                    previous: Some(fit.params),
                };
            }
            Turn::Settles => {
                let used = state.included;
                return Ok(settled(altitude, reference, used, fit, step.place, step.norm)?);
            }
        }
    }
    Err(Refusal::NoFixedPoint)
}

// Solves one transmission's problem, whose arrays are lent: of s kept receptions under a cap of 2s + 2 rounds.
pub fn solve_lent<'a>(
    time: &'a [i64; 32],
    site_mm: &'a [i64; 96],
    site: &'a [f64; 96],
    z: &'a [f64; 32],
    noise: &'a [f64; 32],
    clock: &'a [f64; 1024],
    n: usize,
    altitude: Altitude,
    reference_ps: i64,
) -> Result<Fix, Refusal>
    requires { n ≤ 32 }
    ensures { result ≡ as_answer (outlier_rounds
        (setting_of (receptions site.now z.now noise.now clock.now n
        altitude) (kept_at time.now site_mm.now n) reference_ps)) }
{
    let kept = screen::screen(time, site_mm, n);
    let cap = 2 * sets::count(kept) + 2;
    outlier_rounds(site, z, noise, clock, n, altitude, reference_ps, kept, cap)
}

// Solves one transmission's problem.
pub fn solve_problem(p: Problem) -> Result<Fix, Refusal>
    requires { p.n ≤ 32 }
    ensures { result ≡ as_answer (solve_problem p) }
{
    let n = p.n;
    let altitude = p.altitude;
    let reference_ps = p.reference_ps;
    solve_lent(
        &p.time,
        &p.site_mm,
        &p.site,
        &p.z,
        &p.noise_m2,
        &p.clock_m2,
        n,
        altitude,
        reference_ps,
    )
}
