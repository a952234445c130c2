// Positions as a display takes them, for callers in C: document 02, item 13, items I020/041 and I020/105 of
// Eurocontrol's category 020.
ghost use Rattle.std.specs.Prelude.{◌≡◌};
ghost use Rattle.refusals.specs.Refusals.{answer_of};
ghost use Rattle.asterix.specs.Items as items;
ghost use Rattle.mlat_solver.specs.Positions.{wire_of};
ghost use Rattle.mlat_solver.specs.Displays as held;

// Writes the wire's numbers as the ten bytes of the two items: 23 where another length is lent, latitude is beyond ±90
// or longitude beyond ±180 degrees, or the height's multiple is outside 16 bits; then `out` stays.
#[unsafe(no_mangle)]
pub extern "C" fn mlat_to_asterix(numbers: &[i32; 3], out: &mut [u8]) -> u32
    ensures answer { result ≡ items.to_answer (wire_of numbers.now) out.old }
    ensures output { out.new ≡ items.to_output (wire_of numbers.now) out.old }
{
    mlat_solver::mlat_to_asterix(numbers, out)
}

// The three multiples of whichever ten bytes: latitude and longitude in 180/2^25 degree, height in 6.25 ft. 23 for
// another length; then `multiples` stays.
#[unsafe(no_mangle)]
pub extern "C" fn mlat_read_asterix(bytes: &[u8], multiples: &mut [i32; 3]) -> u32
    ensures answer { result ≡ answer_of (items.read_items bytes.now) }
    ensures multiples { multiples.new
        ≡ held.multiples_after (items.read_items bytes.now) multiples.old }
{
    mlat_solver::mlat_read_asterix(bytes, multiples)
}

// Writes three multiples as the ten bytes, whatever the place: 23 where another length is lent or the height is outside
// 16 bits; then `out` stays.
#[unsafe(no_mangle)]
pub extern "C" fn mlat_write_asterix(multiples: &[i32; 3], out: &mut [u8]) -> u32
    ensures answer { result ≡ items.write_answer (held.three_of multiples.now) out.old }
    ensures output { out.new
        ≡ items.write_output (held.three_of multiples.now) out.old }
{
    mlat_solver::mlat_write_asterix(multiples, out)
}
