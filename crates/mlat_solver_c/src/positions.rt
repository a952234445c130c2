// Positions as the wire writes them, for callers in C: document 02, item 5.
ghost use Rattle.std.specs.Prelude.{◌≡◌};
ghost use Rattle.refusals.specs.Refusals.{answer_of};
ghost use Rattle.wire.specs.Wire.{to_wire, from_wire};
ghost use Rattle.mlat_solver.specs.Positions as held;

// The position of a record of 176 bytes: latitude and longitude in 10^-7 degree, height in millimetres.
// 16 for another length, 18 where it breaks a rule, then 19 where it holds no fix or a position beyond
// the wire; then `numbers` stays.
#[unsafe(no_mangle)]
pub extern "C" fn mlat_to_wire(bytes: &[u8], numbers: &mut [i32; 3]) -> u32
    ensures answer { result ≡ answer_of (to_wire bytes.now) }
    ensures numbers { numbers.new
        ≡ held.numbers_after (to_wire bytes.now) numbers.old }
{
    mlat_solver::mlat_to_wire(bytes, numbers)
}

// The position that such whole numbers stand for, in degrees and metres: 19 where one is beyond the
// limits; then `position` stays.
#[unsafe(no_mangle)]
pub extern "C" fn mlat_from_wire(numbers: &[i32; 3], position: &mut [f64; 3]) -> u32
    ensures answer { result ≡ answer_of (from_wire (held.wire_of numbers.now)) }
    ensures position { position.new
        ≡ held.position_after (from_wire (held.wire_of numbers.now)) position.old }
{
    mlat_solver::mlat_from_wire(numbers, position)
}
