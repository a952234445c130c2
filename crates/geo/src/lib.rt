// geo.rs. WGS 84 (NIMA TR8350.2): geodetic latitude, longitude and height above the ellipsoid to
// and from Earth-centred Earth-fixed metres, and the local east, north, up basis.
#![tactic(auto)]

mod curvature;

ghost use Rattle.std.specs.Prelude.{◌≡◌, true};
ghost use Rattle.geo.specs.Geo.{to_radians, to_degrees, to_ecef, height, bowring, from_ecef, enu_basis, millimetres};
ghost use Rattle.geo.specs.Geo.{to_mm, metres, from_mm};

use curvature::prime_vertical;

// The semi-major axis, metres.
pub const A: f64 = 6_378_137.0;

// The flattening.
pub const F: f64 = 1.0 / 298.257_223_563;

// The first eccentricity squared.
pub const E2: f64 = F * (2.0 - F);

// The speed of light, metres per second (exact by definition of the metre).
pub const C: f64 = 299_792_458.0;

// A geodetic position: degrees, degrees, metres above the WGS 84 ellipsoid.
#[derive(Clone, Copy)]
pub struct Geodetic {
    pub lat_deg: f64,
    pub lon_deg: f64,
    pub height_m: f64,
}

// One multiplication by the rounded constant, as document 01 has it.
fn to_radians(x: f64) -> f64
    ensures { result ≡ to_radians x }
{
    x.to_radians()
}

fn to_degrees(x: f64) -> f64
    ensures { result ≡ to_degrees x }
{
    x.to_degrees()
}

pub fn to_ecef(position: Geodetic) -> [f64; 3]
    ensures { result ≡ to_ecef position }
{
    let lat = libm::sincos(to_radians(position.lat_deg));
    let lon = libm::sincos(to_radians(position.lon_deg));
    let n = prime_vertical(lat.sin);
    [
        (n + position.height_m) * lat.cos * lon.cos,
        (n + position.height_m) * lat.cos * lon.sin,
        (n * (1.0 - E2) + position.height_m) * lat.sin,
    ]
}

// The height, at this latitude, of a point p from the axis and z from the equator's plane.
fn height(p: f64, z: f64, sin_lat: f64, cos_lat: f64, n: f64) -> f64
    ensures { result ≡ height p z sin_lat cos_lat n }
{
    if binary64::abs(cos_lat) > 1e-9 {
        return p / cos_lat - n;
    }
    binary64::abs(z) / binary64::abs(sin_lat) - n * (1.0 - E2)
}

// What a round of Bowring's iteration finds: the height, and the x for which z / x is the tangent
// of the next latitude.
#[derive(Clone, Copy)]
struct Round {
    height: f64,
    x: f64,
}

// A round from the latitude `lat`, but for the arc tangent.
fn bowring(p: f64, z: f64, lat: f64) -> Round
    ensures { result ≡ bowring p z lat }
{
    let at = libm::sincos(lat);
    let n = prime_vertical(at.sin);
    let h = height(p, z, at.sin, at.cos, n);
    Round {
        height: h,
        x: p * (1.0 - E2 * n / (n + h)),
    }
}

// Whether a and b have the same bits, which 0 and -0 have not.
fn same(a: f64, b: f64) -> bool
    ensures { result ≡ true → a ≡ b }
{
    binary64::to_bits(a) == binary64::to_bits(b)
}

// ECEF to geodetic by Bowring's iteration, a fixed six rounds (converged to well under a
// millimetre anywhere an aircraft can be). Where a round gives the x that it came from, the
// latitude stays, and the rounds that are left would repeat it: they are spared.
pub fn from_ecef(ecef: [f64; 3]) -> Geodetic
    ensures { result ≡ from_ecef ecef }
{
    let z = ecef[2];
    let lon = libm::atan2(ecef[1], ecef[0]);
    let p = libm::hypot(ecef[0], ecef[1]);
    let mut x = p * (1.0 - E2);
    let mut lat = libm::atan2(z, x);
    let mut height = 0.0;
    for k in 0usize..6 {
        let found = bowring(p, z, lat);
        height = found.height;
        if same(found.x, x) {
            break;
        }
        x = found.x;
        lat = libm::atan2(z, x);
    }
    Geodetic {
        lat_deg: to_degrees(lat),
        lon_deg: to_degrees(lon),
        height_m: height,
    }
}

// The unit vectors east, north and up at a geodetic latitude and longitude, in ECEF.
pub fn enu_basis(lat_deg: f64, lon_deg: f64) -> [[f64; 3]; 3]
    ensures { result ≡ enu_basis lat_deg lon_deg }
{
    let lat = libm::sincos(to_radians(lat_deg));
    let lon = libm::sincos(to_radians(lon_deg));
    [
        [-lon.sin, lon.cos, 0.0],
        [-lat.sin * lon.cos, -lat.sin * lon.sin, lat.cos],
        [lat.cos * lon.cos, lat.cos * lon.sin, lat.sin],
    ]
}

// The nearest whole number of millimetres, as Rust casts it to an i64: beyond an end of i64 that
// end, and 0 for a not-a-number.
fn millimetres(metres: f64) -> i64
    ensures { result ≡ millimetres metres }
{
    std::num::saturating_f64_to_i64(binary64::round(metres * 1000.0))
}

// ECEF metres rounded to whole millimetres, the form a clock model stores a site in.
pub fn to_mm(ecef: [f64; 3]) -> [i64; 3]
    ensures { result ≡ to_mm ecef }
{
    [
        millimetres(ecef[0]),
        millimetres(ecef[1]),
        millimetres(ecef[2]),
    ]
}

// Millimetres in metres: the nearest f64 to the number, then one division.
fn metres(value: i64) -> f64
    ensures { result ≡ metres value }
{
    std::num::nearest_i64_to_f64(value) / 1000.0
}

pub fn from_mm(mm: [i64; 3]) -> [f64; 3]
    ensures { result ≡ from_mm mm }
{
    [metres(mm[0]), metres(mm[1]), metres(mm[2])]
}
