// The outlier rule: normalised residuals, and what they decide.
ghost use Rattle.std.specs.Prelude.{◌≡◌, ℕ, ◌+◌, ◌^◌, ◌<◌, ◌≤◌, cond, ◌&&◌, replicate, Some, Ok, Float};
ghost use Rattle.std.specs.Float.Ieee.{lt, le};
ghost use Rattle.binary64.specs.Steps.{nought};
ghost use Rattle.dense.specs.Entries.{nth};
ghost use Rattle.sets.specs.Mask.{has};
ghost use Rattle.sets.specs.Sets.{Subset};
ghost use Rattle.problem.specs.declared.Altitude.{Altitude};
ghost use Rattle.whitening.specs.Whitened.{fill_to};
ghost use Rattle.damped.specs.declared.Fit as fit;
ghost use Rattle.best.specs.Held.{receptions};
ghost use Rattle.rounds.specs.declared.outliers.Turn.TheVariants.{Changes};
ghost use Rattle.rounds.specs.Setting.{five};
ghost use Rattle.rounds.specs.Rounds.{no_number, unnumbered, decided};
ghost use Rattle.rounds.specs.Looked.{goes_before, looked_to};
ghost use Rattle.rounds.specs.Solve.{normalised};
ghost use Rattle.rounds.specs.Held.{step_of};

use crate::Refusal;

// The threshold on a reception's normalised residual: of solve.rs.
const OUTLIER_Z: f64 = 5.0;

// What a round comes to, beside its fit: other receptions included, or none.
#[derive(Clone, Copy)]
pub enum Turn {
    Changes(u32),
    Settles,
}

// The normalised residuals of all n receptions at the parameters, in an array of zeros.
pub fn residuals(
    site: &[f64; 96],
    z: &[f64; 32],
    noise: &[f64; 32],
    clock: &[f64; 1024],
    n: usize,
    params: [f64; 4],
) -> [f64; 32]
    requires { n ≤ 32 }
    ensures { (altitude : Altitude) → result
        ≡ fill_to (replicate 32 nought) (normalised
        (receptions site.now z.now noise.now clock.now
        n altitude) params) n }
{
    let x = [params[0], params[1], params[2]];
    let mut squared = [0.0; 32];
    let mut ranges = [0.0; 32];
    whitening::ranges_of(site, n, x, &mut squared, &mut ranges);
    let sigmas = whitening::sigmas(clock, n, noise);
    let mut out = [0.0; 32];
    for i in 0..n {
        out[i] = binary64::abs(z[i] - params[3] - ranges[i]) / sigmas[i];
    }
    out
}

// Whether reception i is kept and its residual not a number.
fn no_number(kept: u32, z: &[f64; 32], i: usize) -> bool
    requires { i < 32 }
    ensures { result ≡ no_number (has kept) (nth z.now) i }
{
    sets::has(kept, i) && z[i].is_nan()
}

// Whether a kept reception's residual is not a number.
fn unnumbered(kept: u32, z: &[f64; 32], n: usize) -> bool
    requires { n ≤ 32 }
    ensures { result ≡ unnumbered (has kept) (nth z.now) n }
{
    (0..n).any(|i| no_number(kept, z, i))
}

// A chosen reception and its residual.
#[derive(Clone, Copy)]
pub struct Choice {
    pub at: usize,
    pub z: f64,
}

// Both choices among the receptions looked at: the worst included one above the threshold, and the least
// left-out one not above it.
#[derive(Clone, Copy)]
pub struct Choices {
    pub worst: Option<Choice>,
    pub least: Option<Choice>,
}

// Whether x is greater than the worst so far, or there is none.
fn greater(x: f64, worst: Option<Choice>) -> bool
    ensures { result ≡ goes_before (λ a b. lt b a) x worst }
{
    match worst {
        Some(top) => x > top.z,
        None => true,
    }
}

// The worst, one included reception further: i, with the residual x.
fn worst_with(worst: Option<Choice>, i: usize, x: f64) -> Option<Choice>
    ensures { result ≡ cond (lt five x && goes_before (λ a b. lt b a) x worst)
        (Some (record { at = i; z = x })) worst }
{
    if x > OUTLIER_Z && greater(x, worst) {
        return Some(Choice { at: i, z: x });
    }
    worst
}

// Whether x is less than the least so far, or there is none.
fn less(x: f64, least: Option<Choice>) -> bool
    ensures { result ≡ goes_before lt x least }
{
    match least {
        Some(top) => x < top.z,
        None => true,
    }
}

// The least, one left-out reception further: i, with the residual x.
fn least_with(least: Option<Choice>, i: usize, x: f64) -> Option<Choice>
    ensures { result ≡ cond (le x five && goes_before lt x least)
        (Some (record { at = i; z = x })) least }
{
    if x <= OUTLIER_Z && less(x, least) {
        return Some(Choice { at: i, z: x });
    }
    least
}

// Both, one reception further: i, with the residual x.
fn look(seen: Choices, kept: u32, included: u32, i: usize, x: f64) -> Choices
    requires { i < 32 }
    ensures { (z : ℕ → Float) → x ≡ z i → seen ≡ looked_to (has kept) (has included) z i
        → result ≡ looked_to (has kept) (has included) z (i + 1) }
{
    let worst = seen.worst;
    let least = seen.least;
    if sets::has(included, i) {
        return Choices {
            worst: worst_with(worst, i, x),
            least,
        };
    }
    if sets::has(kept, i) {
        return Choices {
            worst,
            least: least_with(least, i, x),
        };
    }
    seen
}

// Both among the first k receptions, by one pass, in which each residual is read once.
fn looked(kept: u32, included: u32, z: &[f64; 32], k: usize) -> Choices
    requires { k ≤ 32 }
    ensures { result ≡ looked_to (has kept) (has included) (nth z.now) k }
{
    let mut seen = Choices {
        worst: None,
        least: None,
    };
    for i in 0..k {
        seen = look(seen, kept, included, i, z[i]);
    }
    seen
}

// What the residuals decide: 6 where one is not a number, then a removal, then a return.
pub fn decided(kept: u32, included: u32, z: &[f64; 32], n: usize) -> Result<Turn, Refusal>
    requires { (n ≤ 32) × (included < 2 ^ n) }
    ensures { ((f : fit.Fit) → step_of result f ≡ decided (has kept) (has included) (nth z.now) n f)
        × ((m : ℕ) → result ≡ Ok (Changes m) → m < 2 ^ n) }
{
    if unnumbered(kept, z, n) {
        return Err(Refusal::Singular);
    }
    let chosen = looked(kept, included, z, n);
    if let Some(worst) = chosen.worst {
        return Ok(Turn::Changes(sets::without(included, worst.at)));
    }
    if let Some(least) = chosen.least {
        return Ok(Turn::Changes(sets::joined(included, least.at)));
    }
    Ok(Turn::Settles)
}
