// `finish` of solve.rs: what a fix shows of the fit at which the rounds settled.
ghost use Rattle.std.specs.Prelude.{◌≡◌, replicate};
ghost use Rattle.dense.specs.Factor.{cholesky};
ghost use Rattle.dense.specs.Held.{verdict};
ghost use Rattle.dense.specs.Inverse.{inverse};
ghost use Rattle.binary64.specs.Steps.{nought};
ghost use Rattle.geo.specs.Geo.{from_ecef};
ghost use Rattle.problem.specs.Problem.{position};
ghost use Rattle.limits.specs.Local.{published};
ghost use Rattle.rounds.specs.Finish.{wide, certain, fix_of, finish};
ghost use Rattle.rounds.specs.Held.{as_result};

use crate::moment::transmit;
use damped::Fit;
use geo::Geodetic;
use record::Fix;

// The most a published fix's standard deviation may be along any axis, metres: of solve.rs.
const MAX_SIGMA_M: f64 = 1_500.0;

// What the steps after the rounds can refuse: document 01's 6 (the whitener), 5, 6 (the information), 9 and 3 are
// tested in this order, of which the whitener is not refused where the rounds settle.
#[derive(Clone, Copy)]
pub enum Unpublished {
    Inconsistent,
    Singular,
    Uncertain,
    OutOfRange,
}

// Whether a variance is above MAX_SIGMA_M squared, along any axis.
fn wide(c: [[f64; 3]; 3]) -> bool
    ensures { result ≡ wide c }
{
    if c[0][0] > MAX_SIGMA_M * MAX_SIGMA_M {
        return true;
    }
    if c[1][1] > MAX_SIGMA_M * MAX_SIGMA_M {
        return true;
    }
    c[2][2] > MAX_SIGMA_M * MAX_SIGMA_M
}

// Whether the covariance is well enough determined to publish, and positive definite.
fn certain(c: [[f64; 3]; 3]) -> bool
    ensures { result ≡ certain c }
{
    if wide(c) {
        return false;
    }
    let check = [
        c[0][0], c[0][1], c[0][2], c[1][0], c[1][1], c[1][2], c[2][0], c[2][1], c[2][2],
    ];
    let mut l = [0.0; 9];
    dense::cholesky(&check, 3, &mut l)
}

// The factor of the information, into l; false where it has none.
fn factor(information: &[f64; 16], l: &mut [f64; 16]) -> bool
    ensures { verdict result l.new ≡ cholesky information.now 4 l.old }
{
    dense::cholesky(information, 4, &mut *l)
}

// The published covariance of the information with the factor l.
fn covariance(l: &[f64; 16]) -> [[f64; 3]; 3]
    ensures { result ≡ published (inverse l.now 4 (replicate 16 nought)) }
{
    let mut m = [0.0; 16];
    dense::inverse(l, 4, &mut m);
    limits::published(&m)
}

fn fix_of(mask: u32, dof: u32, fit: Fit, place: Geodetic, c: [[f64; 3]; 3], transmit_ps: i64) -> Fix
    requires { place ≡ from_ecef (position fit.params) }
    ensures { result ≡ fix_of mask dof fit c transmit_ps }
{
    let params = fit.params;
    let ecef = [params[0], params[1], params[2]];
    let r0 = c[0];
    let r1 = c[1];
    let r2 = c[2];
    Fix {
        mask,
        dof,
        ecef,
        t: params[3],
        position: place,
        transmit_ps,
        r0,
        r1,
        r2,
        chi2: fit.cost,
    }
}

// The fix of the receptions in the mask, with so many degrees of freedom and at this place, or why it is not
// published.
pub fn finish(
    mask: u32,
    dof: u32,
    reference_ps: i64,
    fit: Fit,
    place: Geodetic,
) -> Result<Fix, Unpublished>
    requires { place ≡ from_ecef (position fit.params) }
    ensures { result ≡ as_result (finish mask dof reference_ps fit) }
{
    let information = fit.information;
    let params = fit.params;
    let mut l = [0.0; 16];
    if !factor(&information, &mut l) {
        return Err(Unpublished::Singular);
    }
    let c = covariance(&l);
    if !certain(c) {
        return Err(Unpublished::Uncertain);
    }
    let transmit_ps = transmit(reference_ps, params[3]).ok_or(Unpublished::OutOfRange)?;
    Ok(fix_of(mask, dof, fit, place, c, transmit_ps))
}
