// Positions as the wire writes them, for callers in C: document 02, item 5.
ghost use Rattle.std.specs.Prelude.{◌≡◌};
ghost use Rattle.refusals.specs.Refusals.{answer_of};
ghost use Rattle.wire.specs.Wire.{to_wire, from_wire};
ghost use Rattle.mlat_solver.specs.Positions as held;

use wire::Wire;

// The position of a record of 176 bytes: latitude and longitude in 10^-7 degree, height in millimetres.
// 16 for another length, 18 where it breaks a rule, then 19 where it holds no fix or a position beyond
// the wire; then `numbers` stays.
pub fn mlat_to_wire(bytes: &[u8], numbers: &mut [i32; 3]) -> u32
    ensures answer { result ≡ answer_of (to_wire bytes.now) }
    ensures numbers { numbers.new
        ≡ held.numbers_after (to_wire bytes.now) numbers.old }
{
    match wire::to_wire(bytes) {
        Ok(w) => {
            *numbers = [w.lat, w.lon, w.height];
            0
        }
        Err(refusal) => refusal.number(),
    }
}

pub fn whole(numbers: &[i32; 3]) -> Wire
    ensures { result ≡ held.wire_of numbers.now }
{
    Wire {
        lat: numbers[0],
        lon: numbers[1],
        height: numbers[2],
    }
}

// The position that such whole numbers stand for, in degrees and metres: 19 where one is beyond the
// limits; then `position` stays.
pub fn mlat_from_wire(numbers: &[i32; 3], position: &mut [f64; 3]) -> u32
    ensures answer { result ≡ answer_of (from_wire (held.wire_of numbers.now)) }
    ensures position { position.new
        ≡ held.position_after (from_wire (held.wire_of numbers.now)) position.old }
{
    match wire::from_wire(whole(numbers)) {
        Ok(p) => {
            *position = [p.lat_deg, p.lon_deg, p.height_m];
            0
        }
        Err(why) => why.number(),
    }
}
