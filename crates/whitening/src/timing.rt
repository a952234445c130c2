// The timing covariance of the k chosen receptions `index` of n, square metres: each reception's noise
// on the diagonal plus the clock covariance.
ghost use Rattle.std.specs.Prelude.{◌≡◌, ℕ, ◌-◌, ◌<◌, ◌≤◌, replicate};
ghost use Rattle.binary64.specs.Steps.{nought};
ghost use Rattle.binary64.specs.Root.{root};
ghost use Rattle.dense.specs.Held.{verdict};
ghost use Rattle.linalg.specs.Held.{matrix};
ghost use Rattle.problem.specs.Gathered.{pick};
ghost use Rattle.whitening.specs.Whitened.{fill_to};
ghost use Rattle.whitening.specs.Covariance.{shared, covariance_row_to, covariance, sigma, whitener};

use linalg::Matrix;

// The covariance of the a-th and the b-th chosen.
fn shared(
    clock: &[f64; 1024],
    n: usize,
    noise: &[f64; 32],
    index: &[usize; 32],
    a: usize,
    b: usize,
) -> f64
    requires { (n ≤ 32) × (a < 32) × (b < 32) × (pick index.now a < n) × (pick index.now b < n) }
    ensures { result ≡ shared clock.now n noise.now index.now a b }
{
    let i = index[a];
    let value = dense::at(clock, n, i, index[b]);
    if a == b {
        return value + noise[i];
    }
    value
}

// Row a and column a, from the diagonal on, into the array of a `Matrix` of size k.
fn covariance_row(
    clock: &[f64; 1024],
    n: usize,
    noise: &[f64; 32],
    index: &[usize; 32],
    k: usize,
    a: usize,
    sigma: &mut [f64; 1024],
)
    requires n_bound { (n ≤ 32) × (k ≤ 32) × (a < k) }
    requires by_index { (i : ℕ) → i < k → pick index.now i < n }
    ensures { sigma.new
        ≡ covariance_row_to clock.now n noise.now index.now k a sigma.old
        (k - a) }
{
    for b in a..k {
        let value = shared(clock, n, noise, index, a, b);
        Matrix::set(&mut *sigma, k, a, b, value);
        Matrix::set(&mut *sigma, k, b, a, value);
    }
}

// The covariance, in a `Matrix` of size k.
pub fn covariance(
    clock: &[f64; 1024],
    n: usize,
    noise: &[f64; 32],
    index: &[usize; 32],
    k: usize,
) -> Matrix
    requires n_bound { (n ≤ 32) × (k ≤ 32) }
    requires by_index { (i : ℕ) → i < k → pick index.now i < n }
    ensures { result
        ≡ matrix k (covariance clock.now n noise.now index.now k) }
{
    let mut sigma = Matrix::zeros(k);
    for a in 0..k {
        covariance_row(clock, n, noise, index, k, a, &mut sigma.data);
    }
    sigma
}

// One reception's variance, square metres: its diagonal entry.
fn variance(clock: &[f64; 1024], n: usize, noise: &[f64; 32], i: usize) -> f64
    requires { (n ≤ 32) × (i < n) }
    ensures { root result ≡ sigma clock.now n noise.now i }
{
    dense::at(clock, n, i, i) + noise[i]
}

// The standard deviations of all n receptions, metres, in an array of zeros: the roots of their variances,
// taken together.
pub fn sigmas(clock: &[f64; 1024], n: usize, noise: &[f64; 32]) -> [f64; 32]
    requires { n ≤ 32 }
    ensures { result ≡ fill_to (replicate 32 nought) (sigma clock.now n noise.now) n }
{
    let mut variances = [0.0; 32];
    let mut out = [0.0; 32];
    for i in 0..n {
        variances[i] = variance(clock, n, noise, i);
    }
    binary64::roots(&variances, n, &mut out);
    out
}

// The Cholesky factor of the covariance, into the array of a `Cholesky` of size k; false where a pivot is
// refused.
pub fn whitener(
    clock: &[f64; 1024],
    n: usize,
    noise: &[f64; 32],
    index: &[usize; 32],
    k: usize,
    l: &mut [f64; 1024],
) -> bool
    requires n_bound { (n ≤ 32) × (k ≤ 32) }
    requires by_index { (i : ℕ) → i < k → pick index.now i < n }
    ensures { verdict result l.new
        ≡ whitener clock.now n noise.now index.now k l.old }
{
    let sigma = covariance(clock, n, noise, index, k);
    Matrix::cholesky(&sigma.data, sigma.n, &mut *l)
}
