// Bancroft's closed form for `z_i = T + |X - s_i|`, in coordinates centred on the sites' centroid.
ghost use Rattle.std.specs.Prelude.{◌≡◌, ◌<◌, ◌≤◌, [], ◌∷◌, if◌then◌else◌};
ghost use Rattle.binary64.specs.Steps.{◌⊗◌, half, one};
ghost use Rattle.starts.specs.Held.{packed};
ghost use Rattle.starts.specs.Bancroft.{lorentz, row_at, products_to, rhs_to, pseudo, lambdas, all_finite, place_at};
ghost use Rattle.starts.specs.Bancroft.{places, crossed, bancroft};

use crate::{Points, push};

// Below it a coefficient of the quadratic counts as zero: of `bancroft` in solve.rs.
const TINY: f64 = 1e-30;

fn lorentz(a: [f64; 4], b: [f64; 4]) -> f64
    ensures { result ≡ lorentz a b }
{
    a[0] * b[0] + a[1] * b[1] + a[2] * b[2] - a[3] * b[3]
}

// A row: the site of reception i less the centroid, and its time.
fn row_at(sites: &[f64; 96], z: &[f64; 32], centroid: [f64; 3], i: usize) -> [f64; 4]
    requires { i < 32 }
    ensures { result ≡ row_at sites.now z.now centroid i }
{
    let s = linalg::sub(problem::site(sites, i), centroid);
    [s[0], s[1], s[2], z[i]]
}

fn products(sites: &[f64; 96], z: &[f64; 32], centroid: [f64; 3], k: usize) -> [f64; 16]
    requires { k ≤ 32 }
    ensures { result ≡ products_to sites.now z.now centroid k }
{
    let mut btb = [0.0; 16];
    for i in 0..k {
        let next = whitening::plus_products(btb, row_at(sites, z, centroid, i));
        btb = next;
    }
    btb
}

// A row's part in the right side: 1, or where `alpha` is asked for half the row's product with itself.
fn rhs(alpha: bool, row: [f64; 4]) -> f64
    ensures { result ≡ (if alpha then (half ⊗ lorentz row row) else one) }
{
    if alpha {
        return 0.5 * lorentz(row, row);
    }
    1.0
}

// The transpose of the rows times a right side.
fn right_side(
    sites: &[f64; 96],
    z: &[f64; 32],
    centroid: [f64; 3],
    alpha: bool,
    k: usize,
) -> [f64; 4]
    requires { k ≤ 32 }
    ensures { result ≡ rhs_to sites.now z.now centroid alpha k }
{
    let mut bt = [0.0; 4];
    for i in 0..k {
        let row = row_at(sites, z, centroid, i);
        let next = whitening::plus_multiple(bt, row, rhs(alpha, row));
        bt = next;
    }
    bt
}

fn pseudo(l: &[f64; 16], bt: [f64; 4]) -> [f64; 4]
    ensures { result ≡ pseudo l.now bt }
{
    let mut x = bt;
    dense::solve(l, 4, &mut x);
    [x[0], x[1], x[2], -x[3]]
}

// The parameters of a root.
fn place_at(u: [f64; 4], v: [f64; 4], centroid: [f64; 3], lambda: f64) -> [f64; 4]
    ensures { result ≡ place_at u v centroid lambda }
{
    [
        lambda * u[0] + v[0] + centroid[0],
        lambda * u[1] + v[1] + centroid[1],
        lambda * u[2] + v[2] + centroid[2],
        lambda * u[3] + v[3],
    ]
}

fn all_finite(params: [f64; 4]) -> bool
    ensures { result ≡ all_finite params }
{
    if binary64::is_finite(params[0]) {
        if binary64::is_finite(params[1]) {
            if binary64::is_finite(params[2]) {
                return binary64::is_finite(params[3]);
            }
        }
    }
    false
}

// The start of a root more, if it is finite.
fn with_place(points: Points, u: [f64; 4], v: [f64; 4], centroid: [f64; 3], lambda: f64) -> Points
    ensures { result ≡ packed points (places u v centroid (lambda ∷ [])) }
{
    let params = place_at(u, v, centroid, lambda);
    if all_finite(params) {
        return push(points, params);
    }
    points
}

// The starts of the real roots of `a x² + b x + c` more.
fn with_places(
    points: Points,
    u: [f64; 4],
    v: [f64; 4],
    centroid: [f64; 3],
    a: f64,
    b: f64,
    c: f64,
) -> Points
    ensures { result ≡ packed points (places u v centroid (lambdas a b c)) }
{
    if binary64::abs(a) < TINY {
        if binary64::abs(b) > TINY {
            return with_place(points, u, v, centroid, -c / b);
        }
        return points;
    }
    let discriminant = b * b - 4.0 * a * c;
    if discriminant >= 0.0 {
        let root = binary64::sqrt(discriminant);
        let one = with_place(points, u, v, centroid, (-b - root) / (2.0 * a));
        return with_place(one, u, v, centroid, (-b + root) / (2.0 * a));
    }
    points
}

fn with_crossed(points: Points, u: [f64; 4], v: [f64; 4], centroid: [f64; 3]) -> Points
    ensures { result ≡ packed points (crossed u v centroid) }
{
    let a = lorentz(u, u);
    let b = 2.0 * (lorentz(u, v) - 1.0);
    let c = lorentz(v, v);
    with_places(points, u, v, centroid, a, b, c)
}

// Bancroft's starts more: none, one or two.
pub fn with_bancroft(
    points: Points,
    sites: &[f64; 96],
    z: &[f64; 32],
    k: usize,
    centroid: [f64; 3],
) -> Points
    requires { k ≤ 32 }
    ensures { result ≡ packed points (bancroft sites.now z.now k centroid) }
{
    let btb = products(sites, z, centroid, k);
    let mut l = [0.0; 16];
    if dense::cholesky(&btb, 4, &mut l) {
        let ones = right_side(sites, z, centroid, false, k);
        let alpha = right_side(sites, z, centroid, true, k);
        let u = pseudo(&l, ones);
        let v = pseudo(&l, alpha);
        return with_crossed(points, u, v, centroid);
    }
    points
}
