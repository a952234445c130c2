// Document 02, item 13: positions as items I020/041 and I020/105 of Eurocontrol's category 020, from the
// wire's numbers; the three multiples of such items, and the items of three multiples.
#![tactic(auto)]

ghost use Rattle.std.specs.Prelude.{◌≡◌, ◌+◌, ◌*◌, ◌%◌, ◌^◌, ◌<◌, ◌≤◌, nat_abs, pos, ◌*ℤ◌, length};
ghost use Rattle.std.specs.Int.{w32};
ghost use Rattle.std.proofs.Common.{of_z};
ghost use Rattle.refusals.specs.Refusals.{answer_of};
ghost use Rattle.wire.specs.Nearest as fractions;
ghost use Rattle.asterix.specs.Multiples.{angle, level, turned, of_wire, on_globe};
ghost use Rattle.asterix.specs.Items.{four_at, two_at, fitting};
ghost use Rattle.asterix.specs.Held.{put_two, put_four, complement};
ghost use Rattle.asterix.specs.Items.{write_answer, write_output, to_answer, to_output, read_items};

use refusals::Refusal;
use wire::Wire;

// The bytes of the two items.
const LENGTH: usize = 10;

// How many multiples 180 degrees have, and how many of the wire's units.
const HALF_TURN: u64 = 0x200_0000;

const HALF_TURN_WIRE: u64 = 1_800_000_000;

// The millimetres of 6.25 ft.
const STEP_MM: u64 = 1_905;

// The sign's weight in 32 bits and in 16.
const SIGN_OF_FOUR: u64 = 0x8000_0000;

const SIGN_OF_TWO: u64 = 0x8000;

// Latitude and longitude in 180/2^25 degree, height in 6.25 ft.
#[derive(Clone, Copy)]
pub struct Multiples {
    pub lat: i32,
    pub lon: i32,
    pub height: i32,
}

fn size(w: i32) -> u64
    ensures { (result ≡ nat_abs w) × (result ≤ 2 ^ 31) }
{
    w.unsigned_abs() as u64
}

// The whole number nearest to n / den, a half up.
fn rounded(n: u64, den: u64) -> u64
    requires { (n < 2 ^ 63) × (0 < den) × (den < 2 ^ 32) }
    ensures { result ≡ fractions.half_up n den }
{
    let whole = n / den;
    if 2 * (n % den) < den {
        return whole;
    }
    whole + 1
}

// The whole number nearest to w * times / den, a half away from zero.
fn nearest(w: i32, times: u64, den: u64) -> i32
    requires { (2 * times ≤ den) × (0 < den) × (den < 2 ^ 32) }
    ensures { result ≡ fractions.nearest (w *ℤ pos times) den }
{
    wire::signed(w < 0, rounded(size(w) * times, den))
}

fn angle(w: i32) -> i32
    ensures { result ≡ angle w }
{
    nearest(w, HALF_TURN, HALF_TURN_WIRE)
}

fn level(mm: i32) -> i32
    ensures { result ≡ level mm }
{
    nearest(mm, 1, STEP_MM)
}

// 180 degrees are -180.
fn turned(m: i32) -> i32
    ensures { result ≡ turned m }
{
    if m == 0x200_0000 {
        return -0x200_0000;
    }
    m
}

fn of_wire(w: Wire) -> Multiples
    ensures { result ≡ of_wire w }
{
    Multiples {
        lat: angle(w.lat),
        lon: turned(angle(w.lon)),
        height: level(w.height),
    }
}

// Whether latitude is not beyond ±90 degrees and longitude not beyond ±180.
#[tactic(auto, unfolding(crate::specs::Multiples::on_globe))]
fn on_globe(w: Wire) -> bool
    ensures { result ≡ on_globe w }
{
    let lat = -900_000_000 <= w.lat && w.lat <= 900_000_000;
    let lon = -1_800_000_000 <= w.lon && w.lon <= 1_800_000_000;
    lat && lon
}

// The bits of x in two's complement.
fn bits(x: i32) -> u32
    ensures { result ≡ of_z w32 x }
{
    x.cast_unsigned()
}

// The number whose bits in two's complement are n, where `half` is the sign's weight.
fn from_bits(n: u64, half: u64) -> i32
    requires { (n < 2 * half) × (half ≤ 2 ^ 31) }
    ensures { result ≡ complement half n }
{
    if n < half {
        return n as i32;
    }
    let below = (2 * half - 1 - n) as i32;
    -1 - below
}

fn byte(x: u8) -> u64
    ensures { (result ≡ x) × (result < 256) }
{
    x as u64
}

fn low(x: u32) -> u8
    ensures { result ≡ x % 256 }
{
    (x % 256) as u8
}

fn two_at(s: &[u8], k: usize) -> u64
    requires { k + 2 ≤ length s.now }
    ensures { (result ≡ two_at s.now k) × (result < 2 ^ 16) }
{
    byte(s[k]) * 0x100 + byte(s[k + 1])
}

fn four_at(s: &[u8], k: usize) -> u64
    requires { k + 4 ≤ length s.now }
    ensures { (result ≡ four_at s.now k) × (result < 2 ^ 32) }
{
    byte(s[k]) * 0x100_0000 + byte(s[k + 1]) * 0x1_0000 + byte(s[k + 2]) * 0x100 + byte(s[k + 3])
}

fn put_two(s: &mut [u8], k: usize, x: u32)
    requires { k + 2 ≤ length s.old }
    ensures { s.new ≡ put_two s.old k x }
{
    s[k] = low(x / 0x100);
    s[k + 1] = low(x);
}

fn put_four(s: &mut [u8], k: usize, x: u32)
    requires { k + 4 ≤ length s.old }
    ensures { s.new ≡ put_four s.old k x }
{
    put_two(s, k, x / 0x1_0000);
    put_two(s, k + 2, x);
}

// Whether `len` bytes are ten, and 16 bits hold the height.
#[tactic(auto, unfolding(crate::specs::Items::fitting))]
fn fitting(m: Multiples, len: usize) -> bool
    ensures { result ≡ fitting m len }
{
    len == LENGTH && -32_768 <= m.height && m.height <= 32_767
}

// Writes three multiples as the ten bytes of the items, whatever the place: 23 where another length is
// lent or the height is outside 16 bits; then `out` stays.
pub fn write_asterix(m: Multiples, out: &mut [u8]) -> Result<(), Refusal>
    ensures answer { answer_of result ≡ write_answer m out.old }
    ensures output { out.new ≡ write_output m out.old }
{
    if !fitting(m, out.len()) {
        return Err(Refusal::BeyondTheItems);
    }
    put_four(out, 0, bits(m.lat));
    put_four(out, 4, bits(m.lon));
    put_two(out, 8, bits(m.height));
    Ok(())
}

// Writes the wire's numbers as the ten bytes of the items: 23 where another length is lent, latitude is
// beyond ±90 or longitude beyond ±180 degrees, or the height's multiple is outside 16 bits; then `out`
// stays.
pub fn to_asterix(w: Wire, out: &mut [u8]) -> Result<(), Refusal>
    ensures answer { answer_of result ≡ to_answer w out.old }
    ensures output { out.new ≡ to_output w out.old }
{
    if !on_globe(w) {
        return Err(Refusal::BeyondTheItems);
    }
    write_asterix(of_wire(w), out)
}

// The three multiples of whichever ten bytes: 23 for another length.
pub fn read_asterix(s: &[u8]) -> Result<Multiples, Refusal>
    ensures { result ≡ read_items s.now }
{
    if s.len() != LENGTH {
        return Err(Refusal::BeyondTheItems);
    }
    Ok(Multiples {
        lat: from_bits(four_at(s, 0), SIGN_OF_FOUR),
        lon: from_bits(four_at(s, 4), SIGN_OF_FOUR),
        height: from_bits(two_at(s, 8), SIGN_OF_TWO),
    })
}
