// Geodesy: geo.rs, for callers in C.
ghost use Rattle.std.specs.Prelude.{◌≡◌};
ghost use Rattle.geo.specs.Geo.{to_ecef, from_ecef, enu_basis, to_mm, from_mm};
ghost use Rattle.mlat_solver.specs.Display.{IsBoundedBasis};
ghost use Rattle.mlat_solver.specs.Lent.{geodetic_of, three_of, nine_of};

// Degrees, degrees and metres above the WGS 84 ellipsoid to ECEF metres.
#[unsafe(no_mangle)]
pub extern "C" fn mlat_to_ecef(position: &[f64; 3], ecef: &mut [f64; 3])
    ensures { ecef.new ≡ to_ecef (geodetic_of position.now) }
{
    mlat_solver::mlat_to_ecef(position, ecef);
}

// The way back.
#[unsafe(no_mangle)]
pub extern "C" fn mlat_from_ecef(ecef: &[f64; 3], geodetic: &mut [f64; 3])
    ensures { geodetic.new ≡ three_of (from_ecef ecef.now) }
{
    mlat_solver::mlat_from_ecef(ecef, geodetic);
}

// The unit vectors east, north and up at a latitude and longitude, in ECEF, one after the other. Each entry
// lies from -1 to 1, for a latitude within ±90 and a longitude within ±180.
#[unsafe(no_mangle)]
pub extern "C" fn mlat_enu_basis(lat_deg: f64, lon_deg: f64, basis: &mut [f64; 9])
    ensures value { basis.new ≡ nine_of (enu_basis lat_deg lon_deg) }
    ensures meaning { IsBoundedBasis lat_deg lon_deg basis.new }
{
    mlat_solver::mlat_enu_basis(lat_deg, lon_deg, basis);
}

// ECEF metres to whole millimetres: a half away from zero, beyond an end of i64 that end, and 0 for
// a not-a-number.
#[unsafe(no_mangle)]
pub extern "C" fn mlat_to_mm(ecef: &[f64; 3], mm: &mut [i64; 3])
    ensures { mm.new ≡ to_mm ecef.now }
{
    mlat_solver::mlat_to_mm(ecef, mm);
}

// The way back: the nearest f64, then one division.
#[unsafe(no_mangle)]
pub extern "C" fn mlat_from_mm(mm: &[i64; 3], ecef: &mut [f64; 3])
    ensures { ecef.new ≡ from_mm mm.now }
{
    mlat_solver::mlat_from_mm(mm, ecef);
}
