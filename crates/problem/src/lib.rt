// The problem of a solve, as arrays by field, and its receptions gathered for a fit: `Problem`, `Item`
// and `minimum` of solve.rs.
#![tactic(auto)]

ghost use Rattle.std.specs.Prelude.{◌≡◌, ℕ, ◌<◌, ◌≤◌};
ghost use Rattle.problem.specs.Problem.{site_at, minimum};
ghost use Rattle.problem.specs.Gathered.{pick, gather_to, put_site, sites_to};

// Receivers a solve needs without an altitude, and with one: of solve.rs.
const MIN_RECEIVERS: u32 = 4;

const MIN_RECEIVERS_WITH_ALTITUDE: u32 = 3;

// The altitude of the message, metres above the ellipsoid: barometric, GNSS, or none.
#[derive(Clone, Copy)]
pub enum Altitude {
    None,
    Barometric(f64),
    Gnss(f64),
}

// Reception i's time (picoseconds), site (millimetres and metres, three coordinates each), z (metres of
// light) and noise (square metres) stand at i; the clock covariance of i and j
// (square metres) at i * n + j. What lies past the n receptions is zero. The solve takes `altitude`, with
// a station's correction; the record shows `shown`, the altitude as it was given.
#[derive(Clone, Copy)]
pub struct Problem {
    pub n: usize,
    pub time: [i64; 32],
    pub site_mm: [i64; 96],
    pub site: [f64; 96],
    pub z: [f64; 32],
    pub noise_m2: [f64; 32],
    pub clock_m2: [f64; 1024],
    pub altitude: Altitude,
    pub reference_ps: i64,
    pub shown: Altitude,
}

// How many receptions a solve needs.
pub fn minimum(altitude: Altitude) -> u32
    ensures { result ≡ minimum altitude }
{
    match altitude {
        Altitude::None => MIN_RECEIVERS,
        Altitude::Barometric(metres) => MIN_RECEIVERS_WITH_ALTITUDE,
        Altitude::Gnss(metres) => MIN_RECEIVERS_WITH_ALTITUDE,
    }
}

// The site of reception i.
pub fn site(sites: &[f64; 96], i: usize) -> [f64; 3]
    requires { i < 32 }
    ensures { result ≡ site_at sites.now i }
{
    let at = 3 * i;
    [sites[at], sites[at + 1], sites[at + 2]]
}

// A site, to place a.
fn put_site(sites: &mut [f64; 96], a: usize, site: [f64; 3])
    requires { a < 32 }
    ensures { sites.new ≡ put_site sites.old a site }
{
    let at = 3 * a;
    sites[at] = site[0];
    sites[at + 1] = site[1];
    sites[at + 2] = site[2];
}

// The values of the k receptions of `index`, one after the other.
pub fn gather(values: &[f64; 32], index: &[usize; 32], k: usize, out: &mut [f64; 32])
    requires { (k ≤ 32) × ((a : ℕ) → a < k → pick index.now a < 32) }
    ensures { out.new ≡ gather_to values.now index.now out.old k }
{
    for a in 0..k {
        let i = index[a];
        out[a] = values[i];
    }
}

// Their sites.
pub fn gather_sites(sites: &[f64; 96], index: &[usize; 32], k: usize, out: &mut [f64; 96])
    requires { (k ≤ 32) × ((a : ℕ) → a < k → pick index.now a < 32) }
    ensures { out.new ≡ sites_to sites.now index.now out.old k }
{
    for a in 0..k {
        let i = index[a];
        put_site(&mut *out, a, site(sites, i));
    }
}
