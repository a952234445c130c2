// The slopes of the rows along the four parameters, whitened, in the arrays a, b, c and d.
ghost use Rattle.std.specs.Prelude.{◌≡◌, ◌≤◌, ◌<◌, set, List, [], ◌∷◌, Float};
ghost use Rattle.dense.specs.Entries.{nth, at, minus_dots};
ghost use Rattle.dense.specs.Solve.{forward};
ghost use Rattle.std.specs.Float.Ieee.{neg};
ghost use Rattle.binary64.specs.Steps.{one};
ghost use Rattle.whitening.specs.Whitened.{range_at, slope_at, fill_to, up_row, push_altitude};
ghost use Rattle.whitening.specs.Whitened.{no_rows, rows};
ghost use Rattle.whitening.specs.Held.{Ranged, over, row_place, beside, chosen};

use crate::rows::{BARO_SIGMA_M, GNSS_SIGMA_M};
use geo::Geodetic;
use problem::Altitude;

// The slopes of a reception of this range.
fn slope_row(sites: &[f64; 96], i: usize, p: [f64; 4], range: f64) -> [f64; 4]
    requires { (i < 32) × (range ≡ range_at sites.now p i) }
    ensures { result ≡ slope_at sites.now p 0 i ∷ slope_at sites.now p 1 i ∷ slope_at
        sites.now p 2 i ∷ neg one ∷ [] }
{
    let delta = linalg::sub([p[0], p[1], p[2]], problem::site(sites, i));
    [
        -delta[0] / range,
        -delta[1] / range,
        -delta[2] / range,
        -1.0,
    ]
}

// One row of slopes, at place k.
fn put_slopes(
    row: [f64; 4],
    k: usize,
    a: &mut [f64; 33],
    b: &mut [f64; 33],
    c: &mut [f64; 33],
    d: &mut [f64; 33],
)
    requires { k ≤ 32 }
    ensures a_after { a.new ≡ set a.old k (nth row 0) }
    ensures b_after { b.new ≡ set b.old k (nth row 1) }
    ensures c_after { c.new ≡ set c.old k (nth row 2) }
    ensures d_after { d.new ≡ set d.old k (nth row 3) }
{
    a[k] = row[0];
    b[k] = row[1];
    c[k] = row[2];
    d[k] = row[3];
}

// The slopes of k receptions of these ranges.
fn raw_slopes(
    sites: &[f64; 96],
    k: usize,
    p: [f64; 4],
    ranges: &[f64; 32],
    a: &mut [f64; 33],
    b: &mut [f64; 33],
    c: &mut [f64; 33],
    d: &mut [f64; 33],
)
    requires { (k ≤ 32) × Ranged sites.now p k ranges.now }
    ensures a_after { a.new ≡ fill_to a.old (slope_at sites.now p 0) k }
    ensures b_after { b.new ≡ fill_to b.old (slope_at sites.now p 1) k }
    ensures c_after { c.new ≡ fill_to c.old (slope_at sites.now p 2) k }
    ensures d_after { d.new ≡ fill_to d.old (λ i. neg one) k }
{
    for i in 0..k {
        let row = slope_row(sites, i, p, ranges[i]);
        put_slopes(row, i, &mut *a, &mut *b, &mut *c, &mut *d);
    }
}

// v less l[i * n + k] times entry k of each column, for k from 0 below i.
fn minus_dots4(
    l: &[f64; 1024],
    n: usize,
    i: usize,
    a: &[f64; 33],
    b: &[f64; 33],
    c: &[f64; 33],
    d: &[f64; 33],
    v: [f64; 4],
) -> [f64; 4]
    requires { (i < n) × (n ≤ 32) }
    ensures result_value { nth result 0 ≡ minus_dots (at l.now n i) (nth a.now) i (nth v 0) }
    ensures result_value_2 { nth result 1 ≡ minus_dots (at l.now n i) (nth b.now) i (nth v 1) }
    ensures result_value_3 { nth result 2 ≡ minus_dots (at l.now n i) (nth c.now) i (nth v 2) }
    ensures result_value_4 { nth result 3 ≡ minus_dots (at l.now n i) (nth d.now) i (nth v 3) }
{
    let mut v0 = v[0];
    let mut v1 = v[1];
    let mut v2 = v[2];
    let mut v3 = v[3];
    let start = i * n;
    for k in 0..i {
        let e = l[start + k];
        v0 = v0 - e * a[k];
        v1 = v1 - e * b[k];
        v2 = v2 - e * c[k];
        v3 = v3 - e * d[k];
    }
    [v0, v1, v2, v3]
}

// `Cholesky::forward` of four columns, in place. They go row by row together, so that each entry of the
// factor is read once.
fn forward4(
    l: &[f64; 1024],
    n: usize,
    a: &mut [f64; 33],
    b: &mut [f64; 33],
    c: &mut [f64; 33],
    d: &mut [f64; 33],
)
    requires { n ≤ 32 }
    ensures a_after { a.new ≡ forward l.now n a.old }
    ensures b_after { b.new ≡ forward l.now n b.old }
    ensures c_after { c.new ≡ forward l.now n c.old }
    ensures d_after { d.new ≡ forward l.now n d.old }
{
    for i in 0..n {
        let v = [a[i], b[i], c[i], d[i]];
        let w = minus_dots4(l, n, i, &*a, &*b, &*c, &*d, v);
        let root = l[i * n + i];
        let row = [w[0] / root, w[1] / root, w[2] / root, w[3] / root];
        put_slopes(row, i, &mut *a, &mut *b, &mut *c, &mut *d);
    }
}

// The slopes of the altitude's row: the unit vector up, over the deviation.
fn up_row(geodetic: Geodetic, sigma: f64) -> [f64; 4]
    ensures { result ≡ up_row sigma geodetic }
{
    let basis = geo::enu_basis(geodetic.lat_deg, geodetic.lon_deg);
    let up = basis[2];
    [up[0] / sigma, up[1] / sigma, up[2] / sigma, 0.0]
}

// The altitude's slopes after k others, where there is an altitude: gives how many rows there are.
fn push_up(
    altitude: Altitude,
    geodetic: Geodetic,
    k: usize,
    a: &mut [f64; 33],
    b: &mut [f64; 33],
    c: &mut [f64; 33],
    d: &mut [f64; 33],
) -> usize
    requires { k ≤ 32 }
    ensures upper_bound { result ≤ 33 }
    ensures d_after { (r : List Float) → rows result (push_altitude altitude geodetic (rows k r [] [] [] [])).r
        a.new b.new c.new d.new
        ≡ push_altitude altitude geodetic
        (rows k r a.old b.old c.old d.old) }
{
    match altitude {
        Altitude::None => k,
        Altitude::Barometric(metres) => {
            let barometric = up_row(geodetic, BARO_SIGMA_M);
            put_slopes(barometric, k, &mut *a, &mut *b, &mut *c, &mut *d);
            k + 1
        }
        Altitude::Gnss(metres) => {
            let gnss = up_row(geodetic, GNSS_SIGMA_M);
            put_slopes(gnss, k, &mut *a, &mut *b, &mut *c, &mut *d);
            k + 1
        }
    }
}

// The whitened slopes of k receptions of these ranges, the altitude's last, over what the arrays held:
// gives how many rows there are.
pub fn slopes(
    sites: &[f64; 96],
    k: usize,
    l: &[f64; 1024],
    altitude: Altitude,
    p: [f64; 4],
    geodetic: Geodetic,
    ranges: &[f64; 32],
    a: &mut [f64; 33],
    b: &mut [f64; 33],
    c: &mut [f64; 33],
    d: &mut [f64; 33],
) -> usize
    requires { (k ≤ 32) × Ranged sites.now p k ranges.now × (geodetic ≡ row_place altitude p) }
    ensures upper_bound { result ≤ 33 }
    ensures d_after { (z r : List Float) → rows result r a.new b.new c.new d.new
        ≡ beside r (over (chosen k sites.now z l.now altitude) p
        (rows k no_rows a.old b.old c.old d.old)) }
{
    raw_slopes(sites, k, p, ranges, &mut *a, &mut *b, &mut *c, &mut *d);
    forward4(l, k, &mut *a, &mut *b, &mut *c, &mut *d);
    push_up(altitude, geodetic, k, &mut *a, &mut *b, &mut *c, &mut *d)
}
