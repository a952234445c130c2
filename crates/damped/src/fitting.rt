// The loop of the damped fit, and the test after it.
ghost use Rattle.std.specs.Prelude.{◌≡◌, true, ◌≤◌};
ghost use Rattle.whitening.specs.Held.{Scratch, row_place, chosen};
ghost use Rattle.damped.specs.Damped.{fitted, unfitted, plain, started, run, levenberg_marquardt};
ghost use Rattle.damped.specs.Held.{placed};

use crate::{Fit, LM_ITERATIONS, LM_LAMBDA, Lm, Placed, Verdict, descent, small};
use geo::Geodetic;
use problem::Altitude;
use whitening::Equations;

// `Some` of a state as a fit.
fn fitted(state: Lm) -> Fit
    ensures { result ≡ fitted state }
{
    let params = state.params;
    let information = state.information;
    Fit {
        ok: true,
        params,
        cost: state.cost,
        information,
    }
}

// `None`: zeros.
pub fn unfitted() -> Placed
    ensures { result ≡ placed unfitted }
{
    Placed {
        fit: Fit {
            ok: false,
            params: [0.0; 4],
            cost: 0.0,
            information: [0.0; 16],
        },
        place: Geodetic {
            lat_deg: 0.0,
            lon_deg: 0.0,
            height_m: 0.0,
        },
    }
}

// Converged only if a plain Gauss-Newton step from here is below tolerance.
fn plain(state: Lm) -> Fit
    ensures { result ≡ plain state }
{
    match descent(&state.information, state.gradient) {
        Some(x) if small(x) => fitted(state),
        _ => unfitted().fit,
    }
}

// The state at a start, where the normal equations are `first`.
fn started(start: [f64; 4], first: Equations) -> Lm
    ensures { result ≡ started start first }
{
    let information = first.information;
    let gradient = first.gradient;
    Lm {
        params: start,
        information,
        gradient,
        cost: first.cost,
        lambda: LM_LAMBDA,
    }
}

// The loop of `levenberg_marquardt` from a state of this place, and the test after it.
fn run(
    start: Lm,
    place: Geodetic,
    sites: &[f64; 96],
    z: &[f64; 32],
    k: usize,
    l: &[f64; 1024],
    altitude: Altitude,
    r: &mut [f64; 33],
    squared: &mut [f64; 32],
    ranges: &mut [f64; 32],
    a: &mut [f64; 33],
    b: &mut [f64; 33],
    c: &mut [f64; 33],
    d: &mut [f64; 33],
) -> Placed
    requires k_bound { (k ≤ 32) × (place ≡ row_place altitude start.params) }
    requires scratch { Scratch r.old squared.old ranges.old a.old b.old c.old d.old }
    ensures fit_value { result.fit ≡ run (chosen k sites.now z.now l.now
        altitude) 50 start }
    ensures place_value { (result.fit.ok ≡ true) → result.place ≡ row_place altitude result.fit.params }
{
    let mut state = start;
    let mut at = place;
    for n in 0usize..LM_ITERATIONS {
        let moved = state.step(at, sites, z, k, l, altitude, r, squared, ranges, a, b, c, d);
        let turn = moved.stepped;
        let there = moved.place;
        let verdict = turn.verdict;
        let next = turn.state;
        match verdict {
            Verdict::Accepted => {}
            Verdict::Converged => {
                let fit = fitted(next);
                return Placed { fit, place: there };
            }
            Verdict::Rejected => {}
            Verdict::Stopped => {
                let fit = plain(next);
                return Placed { fit, place: there };
            }
            Verdict::Failed => return unfitted(),
        }
        state = next;
        at = there;
    }
    let fit = plain(state);
    Placed { fit, place: at }
}

// A fit beside its place, which the last step that was taken has where there is an altitude.
fn placed(fit: Fit, place: Geodetic, altitude: Altitude) -> Placed
    requires { (fit.ok ≡ true) → place ≡ row_place altitude fit.params }
    ensures { result ≡ placed fit }
{
    if !fit.ok {
        return Placed {
            fit,
            place: unfitted().place,
        };
    }
    match altitude {
        Altitude::None => {
            let p = fit.params;
            let place = geo::from_ecef([p[0], p[1], p[2]]);
            Placed { fit, place }
        }
        _ => Placed { fit, place },
    }
}

// `levenberg_marquardt` from a start of this place, in arrays that are lent to each of its steps.
fn refined(
    sites: &[f64; 96],
    z: &[f64; 32],
    k: usize,
    l: &[f64; 1024],
    altitude: Altitude,
    start: [f64; 4],
    at: Geodetic,
    r: &mut [f64; 33],
    squared: &mut [f64; 32],
    ranges: &mut [f64; 32],
    a: &mut [f64; 33],
    b: &mut [f64; 33],
    c: &mut [f64; 33],
    d: &mut [f64; 33],
) -> Placed
    requires k_bound { (k ≤ 32) × (at ≡ row_place altitude start) }
    requires scratch { Scratch r.old squared.old ranges.old a.old b.old c.old d.old }
    ensures fit_value { result.fit ≡ levenberg_marquardt
        (chosen k sites.now z.now l.now altitude) start }
    ensures place_value { (result.fit.ok ≡ true) → result.place ≡ row_place altitude result.fit.params }
{
    let first = whitening::evaluated(
        sites, z, k, l, altitude, start, at, r, squared, ranges, a, b, c, d,
    );
    let state = started(start, first);
    run(
        state, at, sites, z, k, l, altitude, r, squared, ranges, a, b, c, d,
    )
}

// Levenberg-Marquardt from `start` over the k receptions at `sites` that came at `z`, whitened by
// the factor l.
pub fn levenberg_marquardt(
    sites: &[f64; 96],
    z: &[f64; 32],
    k: usize,
    l: &[f64; 1024],
    altitude: Altitude,
    start: [f64; 4],
) -> Placed
    requires { k ≤ 32 }
    ensures { result ≡ placed (levenberg_marquardt
        (chosen k sites.now z.now l.now altitude) start) }
{
    let at = whitening::place(altitude, start);
    let mut r = [0.0; 33];
    let mut squared = [0.0; 32];
    let mut ranges = [0.0; 32];
    let mut a = [0.0; 33];
    let mut b = [0.0; 33];
    let mut c = [0.0; 33];
    let mut d = [0.0; 33];
    let ended = refined(
        sites,
        z,
        k,
        l,
        altitude,
        start,
        at,
        &mut r,
        &mut squared,
        &mut ranges,
        &mut a,
        &mut b,
        &mut c,
        &mut d,
    );
    let fit = ended.fit;
    placed(fit, ended.place, altitude)
}
