// The best plausible fit of the chosen receptions from their starts: `plausible` and `best_fit` of
// solve.rs.
#![tactic(auto)]

mod norm;

ghost use Rattle.std.specs.Prelude.{◌≡◌, true, not, ◌&&◌, map, ◌++◌, ℕ, ◌-◌, ◌<◌, ◌≤◌, ltb, length, replicate};
ghost use Rattle.std.specs.Prelude.{IfSome, MatchOption};
ghost use Rattle.std.specs.Float.Ieee.{le, lt};
ghost use Rattle.binary64.specs.Steps.{◌⊕◌, decimal};
ghost use Rattle.geo.specs.Geo.{from_ecef};
ghost use Rattle.sets.specs.Sets as sets;
ghost use Rattle.sets.specs.Mask.{has};
ghost use Rattle.sets.specs.Choice.{choose};
ghost use Rattle.sets.specs.Held.{option_of};
ghost use Rattle.problem.specs.Problem.{position, range};
ghost use Rattle.problem.specs.Gathered.{pick};
ghost use Rattle.limits.specs.Heights.{min_height_m, max_height_m};
ghost use Rattle.linalg.specs.Methods.{zeros};
ghost use Rattle.whitening.specs.Covariance.{whitener};
ghost use Rattle.whitening.specs.Held.{chosen};
ghost use Rattle.damped.specs.Damped.{unfitted, levenberg_marquardt};
ghost use Rattle.damped.specs.Held.{placed};
ghost use Rattle.best.specs.Plausible.{max_range_m, near_to, plausible};
ghost use Rattle.best.specs.Best.{distance, explains_alike, fit_at, cheaper, any_fit, weighed, best_of, judged};
ghost use Rattle.best.specs.Held.{EachPlaced, fits_of, array_of, as_best_at, points_to, best_fit};

use damped::{Fit, Placed};
use geo::Geodetic;
use linalg::Cholesky;
use norm::norm;
use problem::Altitude;

// The last binary64 whose root is at most 600,000, the farthest a solution may be from a receiver that
// heard it, metres (`MAX_RANGE_M` of solve.rs): so no root is taken to test a range.
const MAX_RANGE_SQUARED: f64 = 360_000_000_000.00006103515625;

// What another fit may cost more than the best and still be weighed against it: of solve.rs.
const AMBIGUOUS_COST: f64 = 9.0;

// Why receptions have no best fit.
#[derive(Clone, Copy)]
pub enum Unfit {
    NoConvergence,
    OutOfRange,
    Ambiguous,
    Singular,
}

// The best fit, its place, and the rounding norm of its rows.
#[derive(Clone, Copy)]
pub struct BestAt {
    pub fit: Fit,
    pub place: Geodetic,
    pub norm: f64,
}

fn near(sites: &[f64; 96], i: usize, x: [f64; 3]) -> bool
    requires { i < 32 }
    ensures { result ≡ le (range sites.now x i) max_range_m }
{
    let delta = linalg::sub(x, problem::site(sites, i));
    linalg::dot(delta, delta) <= MAX_RANGE_SQUARED
}

fn all_near(sites: &[f64; 96], k: usize, x: [f64; 3]) -> bool
    requires { k ≤ 32 }
    ensures { result ≡ near_to sites.now x k }
{
    (0..k).all(|i| near(sites, i, x))
}

// False of a not-a-number.
fn flying(height: f64) -> bool
    ensures { result ≡ (le min_height_m height && le height max_height_m) }
{
    limits::MIN_HEIGHT_M <= height && height <= limits::MAX_HEIGHT_M
}

// Where a solution may be: between the height limits and within range of every receiver used. Its place
// is known.
pub fn plausible(sites: &[f64; 96], k: usize, p: [f64; 4], place: Geodetic) -> bool
    requires { (k ≤ 32) × (place ≡ from_ecef (position p)) }
    ensures { result ≡ plausible sites.now k p }
{
    flying(place.height_m) && all_near(sites, k, [p[0], p[1], p[2]])
}

// The fits from the first `count` starts with their places, and none past them.
fn fits(
    sites: &[f64; 96],
    z: &[f64; 32],
    k: usize,
    l: &[f64; 1024],
    altitude: Altitude,
    at: &[f64; 72],
    count: usize,
) -> [Placed; 18]
    requires { (k ≤ 32) × (count ≤ 18) }
    ensures { result ≡ map (λ p. placed
        (levenberg_marquardt (chosen k sites.now z.now l.now altitude) p))
        (points_to at.now count) ++ replicate (18 - count) (placed unfitted) }
{
    let mut fits = [damped::unfitted(); 18];
    // By index: the starts lie packed in one array, so an iterator over both is no plainer.
    for i in 0..count {
        fits[i] = damped::levenberg_marquardt(sites, z, k, l, altitude, starts::point(at, i));
    }
    fits
}

// Whether a fit converged and is plausible.
fn weigh(sites: &[f64; 96], k: usize, at: Placed) -> bool
    requires { (k ≤ 32) × (at ≡ placed at.fit) }
    ensures { result ≡ weighed sites.now k at.fit }
{
    at.fit.ok && plausible(sites, k, at.fit.params, at.place)
}

// Which of the fits are weighed, as a mask.
fn weighed(sites: &[f64; 96], k: usize, fits: &[Placed]) -> u32
    requires { (k ≤ 32) × (length fits.now ≤ 18) × EachPlaced fits.now }
    ensures { has result ≡ (λ i. weighed sites.now k (fit_at (fits_of fits.now) i)) }
{
    let mut mask = 0u32;
    // By index, which is what the mask is of.
    for i in 0..fits.len() {
        if weigh(sites, k, fits[i]) {
            mask = sets::joined(mask, i);
        }
    }
    mask
}

// Whether the i-th fit takes the place of the top: the first does, and then one whose cost is not at
// least the top's.
fn replaces(fits: &[Placed], i: usize, top: Option<usize>) -> bool
    requires { (i < length fits.now) × IfSome top (λ t. t < length fits.now) }
    ensures { MatchOption top (result ≡ true) (λ t. result ≡ cheaper (fits_of fits.now) i t) }
{
    match top {
        Some(top) if fits[i].fit.cost >= fits[top].fit.cost => false,
        _ => true,
    }
}

// The first of those with the lowest cost, of the fits in the mask.
fn best_of(fits: &[Placed], mask: u32) -> Option<usize>
    requires { length fits.now ≤ 18 }
    ensures choice { result ≡ option_of (choose (has mask) (cheaper (fits_of fits.now)) (length fits.now)) }
    ensures below { IfSome result (λ top. top < length fits.now) }
{
    let mut top = None;
    // By index, which is what it gives, as the Rust's `fold` does.
    for i in 0..fits.len() {
        if sets::has(mask, i) && replaces(fits, i, top) {
            top = Some(i);
        }
    }
    top
}

// Whether one of the fits converged.
fn converged(fits: &[Placed]) -> bool
    ensures { result ≡ any_fit (λ fit. fit.ok) (fits_of fits.now) }
{
    fits.iter().any(|at| at.fit.ok)
}

// The squared Mahalanobis distance of another fit from the best, under the best's information.
fn distance(best: Fit, other: Fit) -> f64
    ensures { result ≡ distance best other }
{
    let p = best.params;
    let q = other.params;
    let information = best.information;
    let delta = [q[0] - p[0], q[1] - p[1], q[2] - p[2], q[3] - p[3]];
    let mut moved = [0.0; 4];
    dense::mul_vec(&information, 4, &delta, &mut moved);
    0.0 + delta[0] * moved[0] + delta[1] * moved[1] + delta[2] * moved[2] + delta[3] * moved[3]
}

// Whether a weighed fit is a rival of the best: it costs at most so much more, and lies outside the
// limit.
fn rival(best: Fit, other: Fit, limit: f64) -> bool
    ensures { result ≡ (not (lt (best.cost ⊕ decimal 9 0) other.cost) && lt limit (distance best other)) }
{
    !(other.cost > best.cost + AMBIGUOUS_COST) && distance(best, other) > limit
}

// Whether one of the fits in the mask is a rival of the best.
fn rivalled(fits: &[Placed], mask: u32, best: Fit) -> bool
    requires { length fits.now ≤ 18 }
    ensures { result ≡ ltb 0 (sets.count
        (λ i. has mask i && explains_alike best (fit_at (fits_of fits.now) i)) (length fits.now)) }
{
    let limit = limits::chi2_limit(4);
    (0..fits.len()).any(|i| sets::has(mask, i) && rival(best, fits[i].fit, limit))
}

// What the fits come to.
fn judged(
    sites: &[f64; 96],
    z: &[f64; 32],
    k: usize,
    l: &[f64; 1024],
    altitude: Altitude,
    fits: &[Placed],
) -> Result<BestAt, Unfit>
    requires { (k ≤ 32) × (length fits.now ≤ 18) × EachPlaced fits.now }
    ensures { result ≡ as_best_at (chosen k sites.now z.now l.now altitude)
        (judged sites.now k (fits_of fits.now) (best_of sites.now k (fits_of fits.now))) }
{
    let mask = weighed(sites, k, fits);
    let Some(top) = best_of(fits, mask) else {
        if converged(fits) {
            return Err(Unfit::OutOfRange);
        }
        return Err(Unfit::NoConvergence);
    };
    let best = fits[top];
    if rivalled(fits, mask, best.fit) {
        return Err(Unfit::Ambiguous);
    }
    let Placed { fit, place } = best;
    let norm = norm(sites, z, k, l, altitude, fit.params, place);
    Ok(BestAt { fit, place, norm })
}

// The best plausible fit of the k receptions of `index` from the first `count` starts: the lowest
// cost, ties to the earlier start. Refused as ambiguous where another plausible fit costs at most
// AMBIGUOUS_COST more and lies outside the best's own 10^-6 ellipsoid: two places explain the
// receptions alike, and the covariance of either would describe neither.
pub fn best_fit(
    clock_m2: &[f64; 1024],
    n: usize,
    noise_m2: &[f64; 32],
    index: &[usize; 32],
    sites: &[f64; 96],
    z: &[f64; 32],
    k: usize,
    altitude: Altitude,
    at: &[f64; 72],
    count: usize,
) -> Result<BestAt, Unfit>
    requires n_bound { (n ≤ 32) × (k ≤ 32) × (count ≤ 18) }
    requires by_index { (a : ℕ) → a < k → pick index.now a < n }
    ensures { result ≡ as_best_at (chosen k sites.now z.now
        (array_of (whitener clock_m2.now n noise_m2.now index.now k zeros))
        altitude) (best_fit clock_m2.now n noise_m2.now index.now
        sites.now z.now k altitude (points_to at.now count)) }
{
    let mut factor = Cholesky {
        n: k,
        l: [0.0; 1024],
    };
    if !whitening::whitener(clock_m2, n, noise_m2, index, factor.n, &mut factor.l) {
        return Err(Unfit::Singular);
    }
    let fits = fits(sites, z, factor.n, &factor.l, altitude, at, count);
    judged(sites, z, factor.n, &factor.l, altitude, &fits[..count])
}
