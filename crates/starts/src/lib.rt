// Starting points of a fit: `starts` and `bancroft` of solve.rs. The k receptions of the fit are
// gathered: the site of the i-th stands in `sites` from 3 * i, and its time in `z` at i.
#![tactic(auto)]

mod bancroft;
mod lifted;

ghost use Rattle.std.specs.Prelude.{◌≡◌, ◌<◌, ◌≤◌, [], ◌∷◌, if◌then◌else◌};
ghost use Rattle.dense.specs.Entries.{nth};
ghost use Rattle.problem.specs.Problem.{four};
ghost use Rattle.starts.specs.Held.{empty, push, packed, point};
ghost use Rattle.starts.specs.Starts.{start_height, starts_after};

use bancroft::with_bancroft;
use lifted::{centroid, lifted, with_ring};
use problem::Altitude;

// The height of the starts without an altitude, metres: of `starts` in solve.rs.
const START_HEIGHT_M: f64 = 9_000.0;

// At most 18 starts, four floats each: the last round's, the centroid lifted, and the ring of 16.
#[derive(Clone, Copy)]
pub struct Points {
    pub n: usize,
    pub at: [f64; 72],
}

// One start more, if there is room.
fn push(points: Points, params: [f64; 4]) -> Points
    ensures { result ≡ push points params }
{
    let n = points.n;
    if n < 18 {
        let mut at = points.at;
        let k = 4 * n;
        at[k] = params[0];
        at[k + 1] = params[1];
        at[k + 2] = params[2];
        at[k + 3] = params[3];
        return Points { n: n + 1, at };
    }
    points
}

// The start at place k.
pub fn point(at: &[f64; 72], k: usize) -> [f64; 4]
    requires { k < 18 }
    ensures { result ≡ point at.now k }
{
    let i = 4 * k;
    [at[i], at[i + 1], at[i + 2], at[i + 3]]
}

fn start_height(altitude: Altitude) -> f64
    ensures { result ≡ start_height altitude }
{
    match altitude {
        Altitude::None => START_HEIGHT_M,
        Altitude::Barometric(metres) => metres,
        Altitude::Gnss(metres) => metres,
    }
}

// The last round's parameters, where there are any.
fn first(had: bool, previous: [f64; 4]) -> Points
    ensures { result ≡ packed empty (if had then four (nth previous) ∷ [] else []) }
{
    let points = Points {
        n: 0,
        at: [0.0; 72],
    };
    if had {
        return push(points, previous);
    }
    points
}

// The last round's parameters, then Bancroft's roots when there are four or more receptions, then the
// receivers' centroid lifted to the altitude. Under four (three receptions and the altitude: exactly
// determined) a transmission generally has two roots, and one start finds one: a ring about the
// centroid at the altitude finds both, so that the ambiguity rule can see them.
pub fn starts(
    had: bool,
    previous: [f64; 4],
    sites: &[f64; 96],
    z: &[f64; 32],
    k: usize,
    altitude: Altitude,
) -> Points
    requires { k ≤ 32 }
    ensures { result ≡ packed empty (starts_after had previous sites.now z.now k altitude) }
{
    let middle = centroid(sites, k);
    let ground = geo::from_ecef(middle);
    let height = start_height(altitude);
    let above = lifted(sites, z, k, ground, height);
    let points = first(had, previous);
    if k >= 4 {
        return push(with_bancroft(points, sites, z, k, middle), above);
    }
    let basis = geo::enu_basis(ground.lat_deg, ground.lon_deg);
    with_ring(push(points, above), sites, z, k, height, middle, basis)
}
