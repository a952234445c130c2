// Document 02, item 5: positions as the wire writes them, whole numbers of 10^-7 degree and of
// millimetres, and back.
#![tactic(auto)]

ghost use Rattle.std.specs.Prelude.{◌≡◌, Bool, ◌*◌, ◌/◌, ◌%◌, ◌^◌, ◌<◌, nat_abs};
ghost use Rattle.std.specs.Float.{binary64};
ghost use Rattle.std.specs.Float.Ieee.{of_fields, to_bits};
ghost use Rattle.wire.specs.Nearest.{signed};
ghost use Rattle.wire.specs.Wire.{in_units, writable, of_position};
ghost use Rattle.wire.specs.Held.{AtMost};
ghost use Rattle.wire.specs.Wire.{to_wire, readable, from_wire};

use geo::Geodetic;
use refusals::Refusal;

// The bits of an f64: the sign's weight, and that of the exponent's field, which is the place of the
// leading digit.
const SIGN: u64 = 0x8000_0000_0000_0000;

const LEAD: u64 = 0x10_0000_0000_0000;

// How many units a degree and a metre have.
const PER_DEGREE: u64 = 10_000_000;

const PER_METRE: u64 = 1_000;

// Latitude and longitude in 10^-7 degree, height in millimetres.
#[derive(Clone, Copy)]
pub struct Wire {
    pub lat: i32,
    pub lon: i32,
    pub height: i32,
}

// The whole number nearest to `unit` times the magnitude with these bits, a half up.
fn magnitude(rest: u64, unit: u64) -> u64
    requires { (rest < 1038 * 2 ^ 52) × (unit < 2 ^ 24) }
    ensures { (s : Bool) → in_units unit (of_fields binary64 s (rest / 2 ^ 52) (rest % 2 ^ 52)) ≡ signed s result }
{
    let e = rest / LEAD;
    // below 2^-25, and so below half a unit
    if e < 998 {
        return 0;
    }
    // the magnitude is m / 2^(1075 - e); in units and doubled, it is p / 2^(1074 - e)
    let m = rest % LEAD + LEAD;
    let p = m as u128 * unit as u128;
    let doubled = (p >> 32) as u64 >> (1042 - e);
    (doubled + 1) / 2
}

// `size`, or minus `size`.
pub fn signed(minus: bool, size: u64) -> i32
    requires { size < 2 ^ 31 }
    ensures { result ≡ signed minus size }
{
    let n = size as i32;
    if minus {
        return -n;
    }
    n
}

// The bits of a number, which are exact: a product in binary64 would be rounded before.
fn bits_of(x: f64) -> u64
    ensures { result ≡ to_bits binary64 x }
{
    binary64::to_bits(x)
}

// The whole number nearest to the exact value of x times `unit`, a half away from zero.
fn nearest(x: f64, unit: u64) -> i32
    requires { AtMost 25000 x × (unit < 2 ^ 24) × (nat_abs (in_units unit x) < 2 ^ 31) }
    ensures { result ≡ in_units unit x }
{
    let bits = bits_of(x);
    signed(bits >= SIGN, magnitude(bits % SIGN, unit))
}

// Whether no coordinate is beyond the wire, each end included. A not-a-number is.
fn writable(p: Geodetic) -> bool
    ensures { result ≡ writable p }
{
    let lat = -90.0 <= p.lat_deg && p.lat_deg <= 90.0;
    let lon = -180.0 <= p.lon_deg && p.lon_deg <= 180.0;
    let height = limits::MIN_HEIGHT_M <= p.height_m && p.height_m <= limits::MAX_HEIGHT_M;
    lat && lon && height
}

// A position as whole numbers: 19 where a coordinate is beyond its limits.
pub fn of_position(position: Geodetic) -> Result<Wire, Refusal>
    ensures { result ≡ of_position position }
{
    if !writable(position) {
        return Err(Refusal::BeyondTheWire);
    }
    Ok(Wire {
        lat: nearest(position.lat_deg, PER_DEGREE),
        lon: nearest(position.lon_deg, PER_DEGREE),
        height: nearest(position.height_m, PER_METRE),
    })
}

// The position of a fix record as whole numbers: 16 and 18 as the reader gives them, then 19 where the
// record holds no fix or its position is beyond the wire.
#[tactic(auto, unfolding(crate::specs::Wire::to_wire))]
pub fn to_wire(bytes: &[u8]) -> Result<Wire, Refusal>
    ensures { result ≡ to_wire bytes.now }
{
    let content = reader::read(bytes)?;
    if content.answer != 0 {
        return Err(Refusal::BeyondTheWire);
    }
    let fix = content.fix;
    of_position(fix.position)
}

// Whether no whole number is beyond the same limits, in units.
#[tactic(auto, unfolding(crate::specs::Wire::readable))]
fn readable(w: Wire) -> bool
    ensures { result ≡ readable w }
{
    let lat = -900_000_000 <= w.lat && w.lat <= 900_000_000;
    let lon = -1_800_000_000 <= w.lon && w.lon <= 1_800_000_000;
    let height = -1_500_000 <= w.height && w.height <= 25_000_000;
    lat && lon && height
}

// The position that whole numbers stand for, by one division each: 19 where one is beyond the limits.
pub fn from_wire(wire: Wire) -> Result<Geodetic, Refusal>
    ensures { result ≡ from_wire wire }
{
    if !readable(wire) {
        return Err(Refusal::BeyondTheWire);
    }
    Ok(Geodetic {
        lat_deg: wire.lat as f64 / 10_000_000.0,
        lon_deg: wire.lon as f64 / 10_000_000.0,
        height_m: wire.height as f64 / 1_000.0,
    })
}
