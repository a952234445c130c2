// Geodesy: geo.rs, for callers in C.
ghost use Rattle.std.specs.Prelude.{◌≡◌};
ghost use Rattle.geo.specs.Geo.{to_ecef, from_ecef, enu_basis, to_mm, from_mm};
ghost use Rattle.mlat_solver.specs.Display.{IsBoundedBasis};
ghost use Rattle.mlat_solver.specs.Lent.{geodetic_of, three_of, nine_of};

use geo::Geodetic;

// Three numbers as a position.
pub fn geodetic(three: &[f64; 3]) -> Geodetic
    ensures { result ≡ geodetic_of three.now }
{
    Geodetic {
        lat_deg: three[0],
        lon_deg: three[1],
        height_m: three[2],
    }
}

// Degrees, degrees and metres above the WGS 84 ellipsoid to ECEF metres.
pub fn mlat_to_ecef(position: &[f64; 3], ecef: &mut [f64; 3])
    ensures { ecef.new ≡ to_ecef (geodetic_of position.now) }
{
    *ecef = geo::to_ecef(geodetic(position));
}

// The way back.
pub fn mlat_from_ecef(ecef: &[f64; 3], geodetic: &mut [f64; 3])
    ensures { geodetic.new ≡ three_of (from_ecef ecef.now) }
{
    let position = geo::from_ecef(*ecef);
    *geodetic = [position.lat_deg, position.lon_deg, position.height_m];
}

// Three rows of three, one after the other.
pub fn nine(b: [[f64; 3]; 3]) -> [f64; 9]
    ensures { result ≡ nine_of b }
{
    [
        b[0][0], b[0][1], b[0][2], b[1][0], b[1][1], b[1][2], b[2][0], b[2][1], b[2][2],
    ]
}

// The unit vectors east, north and up at a latitude and longitude, in ECEF, one after the other. Each entry
// lies from -1 to 1, for a latitude within ±90 and a longitude within ±180.
pub fn mlat_enu_basis(lat_deg: f64, lon_deg: f64, basis: &mut [f64; 9])
    ensures value { basis.new ≡ nine_of (enu_basis lat_deg lon_deg) }
    ensures meaning { IsBoundedBasis lat_deg lon_deg basis.new }
{
    *basis = nine(geo::enu_basis(lat_deg, lon_deg));
}

// ECEF metres to whole millimetres: a half away from zero, beyond an end of i64 that end, and 0 for
// a not-a-number.
pub fn mlat_to_mm(ecef: &[f64; 3], mm: &mut [i64; 3])
    ensures { mm.new ≡ to_mm ecef.now }
{
    *mm = geo::to_mm(*ecef);
}

// The way back: the nearest f64, then one division.
pub fn mlat_from_mm(mm: &[i64; 3], ecef: &mut [f64; 3])
    ensures { ecef.new ≡ from_mm mm.now }
{
    *ecef = geo::from_mm(*mm);
}
