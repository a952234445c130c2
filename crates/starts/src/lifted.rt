// The start above the receivers' centroid, and the ring of starts about it.
ghost use Rattle.std.specs.Prelude.{◌≡◌, ◌<◌, ◌≤◌};
ghost use Rattle.starts.specs.Held.{packed};
ghost use Rattle.starts.specs.Lifted.{size, centroid, timed, lifted, bearing, ring_place, circle_to, ring};

use crate::{Points, push};
use geo::Geodetic;

// `std::f64::consts::TAU`.
const TAU: f64 = 6.28318530717958647692528676655900577;

// The ring of starts an exactly determined transmission is also solved from: these radii about the
// receivers' centroid, metres, at this many bearings from north (`RING_RADII_M` and `RING_BEARINGS`
// of solve.rs).
const NEAR_RADIUS_M: f64 = 100_000.0;

const FAR_RADIUS_M: f64 = 300_000.0;

const RING_BEARINGS: usize = 8;

// The number of receptions, or 1 where there is none.
fn size(k: usize) -> f64
    requires { k ≤ 32 }
    ensures { result ≡ size k }
{
    if k > 0 {
        return k as f64;
    }
    1.0
}

pub fn centroid(sites: &[f64; 96], k: usize) -> [f64; 3]
    requires { k ≤ 32 }
    ensures { result ≡ centroid sites.now k }
{
    let w = 1.0 / size(k);
    let mut sum = [0.0, 0.0, 0.0];
    for i in 0..k {
        let next = linalg::add(sum, linalg::scale(problem::site(sites, i), w));
        sum = next;
    }
    sum
}

// The place x with the mean of the transmit times that k receptions give it.
fn timed(sites: &[f64; 96], z: &[f64; 32], k: usize, x: [f64; 3]) -> [f64; 4]
    requires { k ≤ 32 }
    ensures { result ≡ timed sites.now z.now k x }
{
    let mut squared = [0.0; 32];
    let mut ranges = [0.0; 32];
    whitening::ranges_of(sites, k, x, &mut squared, &mut ranges);
    let mut sum = 0.0;
    for i in 0..k {
        sum = sum + (z[i] - ranges[i]);
    }
    let t = sum / size(k);
    [x[0], x[1], x[2], t]
}

// The start at a place's latitude and longitude, and at this height.
pub fn lifted(
    sites: &[f64; 96],
    z: &[f64; 32],
    k: usize,
    surface: Geodetic,
    height: f64,
) -> [f64; 4]
    requires { k ≤ 32 }
    ensures { result ≡ lifted sites.now z.now k surface height }
{
    let x = geo::to_ecef(Geodetic {
        lat_deg: surface.lat_deg,
        lon_deg: surface.lon_deg,
        height_m: height,
    });
    timed(sites, z, k, x)
}

fn bearing(step: usize) -> f64
    requires { step < 8 }
    ensures { result ≡ bearing step }
{
    TAU * (step as f64) / (RING_BEARINGS as f64)
}

// The place of the ring at this radius and bearing.
fn ring_place(centroid: [f64; 3], basis: [[f64; 3]; 3], radius: f64, step: usize) -> [f64; 3]
    requires { step < 8 }
    ensures { result ≡ ring_place centroid basis radius step }
{
    let turn = bearing(step);
    let east = basis[0];
    let north = basis[1];
    let offset = linalg::add(
        linalg::scale(east, radius * libm::sin(turn)),
        linalg::scale(north, radius * libm::cos(turn)),
    );
    linalg::add(centroid, offset)
}

// The starts at this radius more.
fn with_circle(
    points: Points,
    sites: &[f64; 96],
    z: &[f64; 32],
    k: usize,
    height: f64,
    centroid: [f64; 3],
    basis: [[f64; 3]; 3],
    radius: f64,
) -> Points
    requires { k ≤ 32 }
    ensures { result ≡ packed points (circle_to sites.now z.now k height centroid
        basis radius 8) }
{
    let mut all = points;
    for step in 0..RING_BEARINGS {
        let place = geo::from_ecef(ring_place(centroid, basis, radius, step));
        let next = push(all, lifted(sites, z, k, place, height));
        all = next;
    }
    all
}

// The ring more.
pub fn with_ring(
    points: Points,
    sites: &[f64; 96],
    z: &[f64; 32],
    k: usize,
    height: f64,
    centroid: [f64; 3],
    basis: [[f64; 3]; 3],
) -> Points
    requires { k ≤ 32 }
    ensures { result ≡ packed points (ring sites.now z.now k height centroid basis) }
{
    let near = with_circle(points, sites, z, k, height, centroid, basis, NEAR_RADIUS_M);
    with_circle(near, sites, z, k, height, centroid, basis, FAR_RADIUS_M)
}
