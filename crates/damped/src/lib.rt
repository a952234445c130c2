// The damped fit of solve.rs: Levenberg-Marquardt from a start, over the whitened rows of chosen
// receptions. A step is here, the loop of steps in fitting.rt.
#![tactic(auto)]

mod fitting;

ghost use Rattle.std.specs.Prelude.{◌≡◌, ◌≤◌};
ghost use Rattle.whitening.specs.Held.{Scratch, row_place, chosen};
ghost use Rattle.damped.specs.Damped.{damped_to, descent, candidate, small, better, accepted, rejected, tried};
ghost use Rattle.damped.specs.Damped.{step};

pub use fitting::{levenberg_marquardt, unfitted};
use geo::Geodetic;
use problem::Altitude;
use whitening::Equations;

// Levenberg-Marquardt: the cap on its steps, the initial damping, and the step below which it has
// converged (metres, on every parameter).
pub const LM_ITERATIONS: usize = 50;

pub const LM_LAMBDA: f64 = 1e-3;

pub const LM_TOLERANCE_M: f64 = 1e-4;

// Of the Rust's `(lambda / 10.0).max(1e-12)`, `lambda *= 10.0` and `lambda > 1e12`.
const LAMBDA_FACTOR: f64 = 10.0;

const LAMBDA_MIN: f64 = 1e-12;

const LAMBDA_MAX: f64 = 1e12;

// Of the Rust's `lambda * information.get(i, i).max(1e-12)`.
const DIAGONAL_MIN: f64 = 1e-12;

// The state of a fit: the parameters, the normal equations there, and the damping.
#[derive(Clone, Copy)]
pub struct Lm {
    pub params: [f64; 4],
    pub information: [f64; 16],
    pub gradient: [f64; 4],
    pub cost: f64,
    pub lambda: f64,
}

// How a step ended: taken, taken and below tolerance, not taken, not taken with lambda past its end,
// or without a Cholesky factor.
#[derive(Clone, Copy)]
pub enum Verdict {
    Accepted,
    Converged,
    Rejected,
    Stopped,
    Failed,
}

#[derive(Clone, Copy)]
pub struct Stepped {
    pub state: Lm,
    pub verdict: Verdict,
}

// What a step gives, and the place of the altitude's row at its parameters.
#[derive(Clone, Copy)]
pub struct SteppedAt {
    pub stepped: Stepped,
    pub place: Geodetic,
}

// A fit where `ok`, which is `Some` in the Rust; `None`, and zeros, where not.
#[derive(Clone, Copy)]
pub struct Fit {
    pub ok: bool,
    pub params: [f64; 4],
    pub cost: f64,
    // `(Jᵀ J)` of the whitened problem at `params`.
    pub information: [f64; 16],
}

// A fit and its place: zeros beside `None`.
#[derive(Clone, Copy)]
pub struct Placed {
    pub fit: Fit,
    pub place: Geodetic,
}

// The information with lambda times its diagonal added.
fn damped(information: [f64; 16], lambda: f64) -> [f64; 16]
    ensures { result ≡ damped_to information lambda 4 }
{
    let mut m = information;
    for i in 0usize..4 {
        let k = i * 4 + i;
        m[k] += lambda * binary64::max(information[k], DIAGONAL_MIN);
    }
    m
}

// x with m x = - gradient, where the Cholesky does not fail.
fn descent(m: &[f64; 16], gradient: [f64; 4]) -> Option<[f64; 4]>
    ensures { result ≡ descent m.now gradient }
{
    let mut l = [0.0; 16];
    if !dense::cholesky(m, 4, &mut l) {
        return None;
    }
    let mut x = [-gradient[0], -gradient[1], -gradient[2], -gradient[3]];
    dense::solve(&l, 4, &mut x);
    Some(x)
}

// The parameters after a step x.
fn candidate(params: [f64; 4], x: [f64; 4]) -> [f64; 4]
    ensures { result ≡ candidate params x }
{
    [
        params[0] + x[0],
        params[1] + x[1],
        params[2] + x[2],
        params[3] + x[3],
    ]
}

// Whether a step to the cost `next` is taken.
fn better(next: f64, cost: f64) -> bool
    ensures { result ≡ better next cost }
{
    binary64::is_finite(next) && next <= cost
}

// Whether a step is below tolerance on every parameter.
fn small(x: [f64; 4]) -> bool
    ensures { result ≡ small x }
{
    x.iter().all(|value| binary64::abs(*value) < LM_TOLERANCE_M)
}

// What a step x gives that is taken to `params`, where the normal equations are `next`.
fn accepted(lambda: f64, x: [f64; 4], params: [f64; 4], next: Equations) -> Stepped
    ensures { result ≡ accepted lambda x params next }
{
    let information = next.information;
    let gradient = next.gradient;
    let state = Lm {
        params,
        information,
        gradient,
        cost: next.cost,
        lambda: binary64::max(lambda / LAMBDA_FACTOR, LAMBDA_MIN),
    };
    if small(x) {
        return Stepped {
            state,
            verdict: Verdict::Converged,
        };
    }
    Stepped {
        state,
        verdict: Verdict::Accepted,
    }
}

// What a step gives that is not taken.
fn rejected(mut state: Lm) -> Stepped
    ensures { result ≡ rejected state }
{
    state.lambda = state.lambda * LAMBDA_FACTOR;
    if state.lambda > LAMBDA_MAX {
        return Stepped {
            state,
            verdict: Verdict::Stopped,
        };
    }
    Stepped {
        state,
        verdict: Verdict::Rejected,
    }
}

// What a step x to the parameters `candidate` gives. The altitude adds to what the receptions cost: where
// they cost more than the state, its row is spared, and the slopes where all rows do.
fn tried(
    state: Lm,
    place: Geodetic,
    x: [f64; 4],
    candidate: [f64; 4],
    sites: &[f64; 96],
    z: &[f64; 32],
    k: usize,
    l: &[f64; 1024],
    altitude: Altitude,
    r: &mut [f64; 33],
    squared: &mut [f64; 32],
    ranges: &mut [f64; 32],
    a: &mut [f64; 33],
    b: &mut [f64; 33],
    c: &mut [f64; 33],
    d: &mut [f64; 33],
) -> SteppedAt
    requires k_bound { (k ≤ 32) × (place ≡ row_place altitude state.params) }
    requires scratch { Scratch r.old squared.old ranges.old a.old b.old c.old d.old }
    ensures stepped_value { result.stepped ≡ tried (chosen k sites.now z.now l.now altitude)
        state x candidate }
    ensures place_value { result.place ≡ row_place altitude result.stepped.state.params }
    ensures scratch_2 { Scratch r.new squared.new ranges.new a.new b.new
        c.new d.new }
{
    let cost = state.cost;
    let part = whitening::residuals(sites, z, k, l, candidate, r, squared, ranges);
    if cost < part {
        let stepped = rejected(state);
        return SteppedAt { stepped, place };
    }
    let there = whitening::place(altitude, candidate);
    if better(whitening::push_height(altitude, there, k, part, r), cost) {
        let next = whitening::completed(
            sites, k, l, altitude, candidate, there, &*ranges, &*r, a, b, c, d,
        );
        let stepped = accepted(state.lambda, x, candidate, next);
        return SteppedAt {
            stepped,
            place: there,
        };
    }
    let stepped = rejected(state);
    SteppedAt { stepped, place }
}

impl Lm {
    // One damped step from a state of this place: a turn of the loop of `levenberg_marquardt`. What the
    // seven arrays hold afterwards is open: only their room is promised.
    pub fn step(
        self,
        place: Geodetic,
        sites: &[f64; 96],
        z: &[f64; 32],
        k: usize,
        l: &[f64; 1024],
        altitude: Altitude,
        r: &mut [f64; 33],
        squared: &mut [f64; 32],
        ranges: &mut [f64; 32],
        a: &mut [f64; 33],
        b: &mut [f64; 33],
        c: &mut [f64; 33],
        d: &mut [f64; 33],
    ) -> SteppedAt
        requires k_bound { (k ≤ 32) × (place ≡ row_place altitude self.params) }
        requires scratch { Scratch r.old squared.old ranges.old a.old b.old c.old d.old }
        ensures stepped_value { result.stepped ≡ step
            (chosen k sites.now z.now l.now altitude) self }
        ensures place_value { result.place ≡ row_place altitude result.stepped.state.params }
        ensures scratch_2 { Scratch r.new squared.new ranges.new a.new
            b.new c.new d.new }
    {
        let m = damped(self.information, self.lambda);
        let Some(x) = descent(&m, self.gradient) else {
            let stepped = Stepped {
                state: self,
                verdict: Verdict::Failed,
            };
            return SteppedAt { stepped, place };
        };
        let candidate = candidate(self.params, x);
        tried(
            self, place, x, candidate, sites, z, k, l, altitude, r, squared, ranges, a, b, c, d,
        )
    }
}
