// The whitened rows: their residuals here, their slopes in slopes.rt. They stand in five arrays: the
// residuals in r, the slopes along the four parameters in a, b, c and d.
ghost use Rattle.std.specs.Prelude.{◌≡◌, ◌+◌, ◌≤◌, ◌<◌, length, set, List, [], Float};
ghost use Rattle.dense.specs.Solve.{forward};
ghost use Rattle.binary64.specs.Root.{root};
ghost use Rattle.geo.specs.Geo.{from_ecef};
ghost use Rattle.problem.specs.Problem.{position, range};
ghost use Rattle.whitening.specs.Whitened.{range_at, fill_to, raw, push_altitude};
ghost use Rattle.whitening.specs.Whitened.{no_rows, rows, whitened};
ghost use Rattle.whitening.specs.Held.{Ranged, row_place, cost_to, chosen};

use crate::slopes::slopes;
use geo::Geodetic;
use problem::Altitude;

// One standard deviation of a barometric altitude as a height above the ellipsoid, metres: of solve.rs.
pub const BARO_SIGMA_M: f64 = 100.0;

// One standard deviation of a GNSS height, metres: of solve.rs.
pub const GNSS_SIGMA_M: f64 = 15.0;

// The square of a reception's range from the place x.
fn squared_range(sites: &[f64; 96], i: usize, x: [f64; 3]) -> f64
    requires { i < 32 }
    ensures { root result ≡ range sites.now x i }
{
    let delta = linalg::sub(x, problem::site(sites, i));
    linalg::dot(delta, delta)
}

// The ranges of k receptions from the place x, metres, their roots taken together. What `squared` holds
// afterwards is open: only its room is promised.
pub fn ranges_of(
    sites: &[f64; 96],
    k: usize,
    x: [f64; 3],
    squared: &mut [f64; 32],
    ranges: &mut [f64; 32],
)
    requires { (k ≤ 32) × (length squared.old ≡ 32) }
    ensures squared_len { length squared.new ≡ 32 }
    ensures ranges_after { ranges.new ≡ fill_to ranges.old (range sites.now x) k }
{
    for i in 0..k {
        squared[i] = squared_range(sites, i, x);
    }
    binary64::roots(&*squared, k, &mut *ranges);
}

// The raw residuals of k receptions, and their ranges.
fn raw_residuals(
    sites: &[f64; 96],
    z: &[f64; 32],
    k: usize,
    p: [f64; 4],
    r: &mut [f64; 33],
    squared: &mut [f64; 32],
    ranges: &mut [f64; 32],
)
    requires { (k ≤ 32) × (length squared.old ≡ 32) × (length ranges.old ≡ 32) }
    ensures r_after { r.new ≡ fill_to r.old (raw sites.now z.now p 0) k }
    ensures squared_len { length squared.new ≡ 32 }
    ensures ranges_after { ranges.new ≡ fill_to ranges.old (range_at sites.now p) k }
{
    let x = [p[0], p[1], p[2]];
    ranges_of(sites, k, x, &mut *squared, &mut *ranges);
    for i in 0..k {
        r[i] = z[i] - p[3] - ranges[i];
    }
}

// The sum of the squares of the first k entries.
fn squares(r: &[f64; 33], k: usize) -> f64
    requires { k ≤ 33 }
    ensures { result ≡ cost_to r.now k }
{
    let mut sum = 0.0;
    for i in 0..k {
        sum = sum + r[i] * r[i];
    }
    sum
}

// The whitened residuals of k receptions and their ranges, over what the arrays held: gives their part
// of the cost. What `squared` holds afterwards, and `ranges` past the k, is open: only their room is
// promised.
pub fn residuals(
    sites: &[f64; 96],
    z: &[f64; 32],
    k: usize,
    l: &[f64; 1024],
    p: [f64; 4],
    r: &mut [f64; 33],
    squared: &mut [f64; 32],
    ranges: &mut [f64; 32],
) -> f64
    requires { (k ≤ 32) × (length r.old ≡ 33) × (length squared.old ≡ 32) × (length ranges.old ≡ 32) }
    ensures r_len { (length r.new ≡ 33)
        × (r.new ≡ forward l.now k
        (fill_to r.old (raw sites.now z.now p 0) k)) }
    ensures squared_len { length squared.new ≡ 32 }
    ensures ranges_len { (length ranges.new ≡ 32)
        × Ranged sites.now p k ranges.new }
    ensures value { result ≡ cost_to r.new k }
{
    raw_residuals(sites, z, k, p, &mut *r, &mut *squared, &mut *ranges);
    dense::forward(l, k, &mut *r);
    squares(&*r, k)
}

// The place that the altitude's row is of; zeros where there is no altitude, since no row asks for it.
pub fn place(altitude: Altitude, p: [f64; 4]) -> Geodetic
    ensures { result ≡ row_place altitude p }
{
    match altitude {
        Altitude::None => Geodetic {
            lat_deg: 0.0,
            lon_deg: 0.0,
            height_m: 0.0,
        },
        Altitude::Barometric(metres) => geo::from_ecef([p[0], p[1], p[2]]),
        Altitude::Gnss(metres) => geo::from_ecef([p[0], p[1], p[2]]),
    }
}

// The same, where the place of p is known.
pub fn row_place(altitude: Altitude, place: Geodetic) -> Geodetic
    ensures { (p : List Float) → place ≡ from_ecef (position p) → result ≡ row_place altitude p }
{
    match altitude {
        Altitude::None => Geodetic {
            lat_deg: 0.0,
            lon_deg: 0.0,
            height_m: 0.0,
        },
        Altitude::Barometric(metres) => place,
        Altitude::Gnss(metres) => place,
    }
}

// A residual after k others: gives the cost of all.
fn put_residual(value: f64, k: usize, cost: f64, r: &mut [f64; 33]) -> f64
    requires { (k ≤ 32) × (k < length r.old) × (cost ≡ cost_to r.old k) }
    ensures r_after { r.new ≡ set r.old k value }
    ensures value { result ≡ cost_to r.new (k + 1) }
{
    r[k] = value;
    cost + value * value
}

// The altitude's residual after k others, where there is an altitude: gives the cost of all.
pub fn push_height(
    altitude: Altitude,
    geodetic: Geodetic,
    k: usize,
    cost: f64,
    r: &mut [f64; 33],
) -> f64
    requires { (k ≤ 32) × (k < length r.old) × (cost ≡ cost_to r.old k) }
    ensures r_after { r.new ≡ (push_altitude altitude geodetic (rows k r.old [] [] [] [])).r }
    ensures value { result ≡ cost_to r.new
        (push_altitude altitude geodetic (rows k r.old [] [] [] [])).count }
{
    let height = geodetic.height_m;
    match altitude {
        Altitude::None => cost,
        Altitude::Barometric(metres) => {
            put_residual((height - metres) / BARO_SIGMA_M, k, cost, &mut *r)
        }
        Altitude::Gnss(metres) => put_residual((height - metres) / GNSS_SIGMA_M, k, cost, &mut *r),
    }
}

// The whitened rows of k receptions at the parameters p, the altitude's last, into arrays of zeros, where
// the altitude's place is known: gives how many rows there are.
pub fn whitened(
    sites: &[f64; 96],
    z: &[f64; 32],
    k: usize,
    l: &[f64; 1024],
    altitude: Altitude,
    p: [f64; 4],
    geodetic: Geodetic,
    r: &mut [f64; 33],
    a: &mut [f64; 33],
    b: &mut [f64; 33],
    c: &mut [f64; 33],
    d: &mut [f64; 33],
) -> usize
    requires k_bound { (k ≤ 32) × (geodetic ≡ row_place altitude p) }
    requires r_value { (r.old ≡ no_rows) × (a.old ≡ no_rows) × (b.old ≡ no_rows) × (c.old ≡ no_rows) × (d.old ≡ no_rows) }
    ensures upper_bound { result ≤ 33 }
    ensures d_after { rows result r.new a.new b.new c.new d.new
        ≡ whitened (chosen k sites.now z.now l.now altitude) p }
{
    let mut squared = [0.0; 32];
    let mut ranges = [0.0; 32];
    let part = residuals(sites, z, k, l, p, &mut *r, &mut squared, &mut ranges);
    let cost = push_height(altitude, geodetic, k, part, &mut *r);
    slopes(
        sites, k, l, altitude, p, geodetic, &ranges, &mut *a, &mut *b, &mut *c, &mut *d,
    )
}
