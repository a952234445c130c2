// Positions as a display takes them, for callers in C: document 02, item 13, items I020/041 and I020/105 of
// Eurocontrol's category 020.
ghost use Rattle.std.specs.Prelude.{◌≡◌};
ghost use Rattle.refusals.specs.Refusals.{answer_of};
ghost use Rattle.asterix.specs.Items as items;
ghost use Rattle.mlat_solver.specs.Positions.{wire_of};
ghost use Rattle.mlat_solver.specs.Displays as held;

use crate::positions::whole;
use asterix::Multiples;

// Writes the wire's numbers as the ten bytes of the two items: 23 where another length is lent, latitude is beyond ±90
// or longitude beyond ±180 degrees, or the height's multiple is outside 16 bits; then `out` stays.
pub fn mlat_to_asterix(numbers: &[i32; 3], out: &mut [u8]) -> u32
    ensures answer { result ≡ items.to_answer (wire_of numbers.now) out.old }
    ensures output { out.new ≡ items.to_output (wire_of numbers.now) out.old }
{
    refusals::answer(asterix::to_asterix(whole(numbers), out))
}

fn three(multiples: &[i32; 3]) -> Multiples
    ensures { result ≡ held.three_of multiples.now }
{
    Multiples {
        lat: multiples[0],
        lon: multiples[1],
        height: multiples[2],
    }
}

// The three multiples of whichever ten bytes: latitude and longitude in 180/2^25 degree, height in 6.25 ft. 23 for
// another length; then `multiples` stays.
pub fn mlat_read_asterix(bytes: &[u8], multiples: &mut [i32; 3]) -> u32
    ensures answer { result ≡ answer_of (items.read_items bytes.now) }
    ensures multiples { multiples.new
        ≡ held.multiples_after (items.read_items bytes.now) multiples.old }
{
    match asterix::read_asterix(bytes) {
        Ok(m) => {
            *multiples = [m.lat, m.lon, m.height];
            0
        }
        Err(why) => why.number(),
    }
}

// Writes three multiples as the ten bytes, whatever the place: 23 where another length is lent or the height is outside
// 16 bits; then `out` stays.
pub fn mlat_write_asterix(multiples: &[i32; 3], out: &mut [u8]) -> u32
    ensures answer { result ≡ items.write_answer (held.three_of multiples.now) out.old }
    ensures output { out.new
        ≡ items.write_output (held.three_of multiples.now) out.old }
{
    refusals::answer(asterix::write_asterix(three(multiples), out))
}
