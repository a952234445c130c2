// The domain of documents 01 and 02, every end included.
ghost use Rattle.std.specs.Prelude.{◌≡◌, ◌&&◌, eqb};
ghost use Rattle.inputs.specs.Domain as domain;

// The ends of the domain, by document 01: picoseconds, millimetres, metres, square metres (three of
// them) and metres; by document 02: centimetres.
const TIME: i64 = 10_000_000_000_000;

const COORDINATE: i64 = 10_000_000_000;

const Z: f64 = 3e9;

const LEAST_NOISE: f64 = 1e-6;

const NOISE: f64 = 1e12;

const CLOCK: f64 = 1e12;

const ALTITUDE: f64 = 100_000.0;

const CORRECTION: i32 = 100_000;

fn between(low: i64, high: i64, x: i64) -> bool
    ensures { result ≡ domain.between low high x }
{
    low <= x && x <= high
}

// A not-a-number is within no limits, and -0 within those from 0.
fn within(low: f64, high: f64, x: f64) -> bool
    ensures { result ≡ domain.within low high x }
{
    low <= x && x <= high
}

fn good_coordinate(x: i64) -> bool
    ensures { result ≡ domain.good_coordinate x }
{
    between(-COORDINATE, COORDINATE, x)
}

fn good_site(site: [i64; 3]) -> bool
    ensures { result ≡ domain.good_site site }
{
    good_coordinate(site[0]) && good_coordinate(site[1]) && good_coordinate(site[2])
}

// A reception, by its fields but the identity.
#[tactic(auto, using(crate::proofs::Limits::far, crate::proofs::Limits::micro, crate::proofs::Limits::tera), unfolding(crate::specs::Domain::good_z, crate::specs::Domain::good_noise))]
pub fn good_reception(time: i64, site: [i64; 3], z: f64, noise_m2: f64, filler: u64) -> bool
    ensures { result ≡ (domain.good_time time && (domain.good_site site
        && ((domain.good_z z && domain.good_noise noise_m2) && eqb filler 0))) }
{
    let timed = between(0, TIME, time);
    let placed = good_site(site);
    let measured = within(0.0, Z, z) && within(LEAST_NOISE, NOISE, noise_m2);
    timed && placed && measured && filler == 0
}

// The clock covariance of receptions i and j, for i on or left of j.
#[tactic(auto, using(crate::proofs::Limits::tera), unfolding(crate::specs::Domain::good_entry))]
pub fn good_entry(i: usize, j: usize, x: f64) -> bool
    ensures { result ≡ domain.good_entry i j x }
{
    if i == j {
        return within(0.0, CLOCK, x);
    }
    within(-CLOCK, CLOCK, x)
}

fn good_correction(correction: i32) -> bool
    ensures { result ≡ domain.good_correction correction }
{
    -CORRECTION <= correction && correction <= CORRECTION
}

// The metres are tested as given; by GNSS they have no correction.
#[tactic(auto, using(crate::proofs::Limits::high, crate::proofs::Correction::zero_bits), unfolding(crate::specs::Domain::good_altitude, crate::specs::Domain::good_metres))]
pub fn good_altitude(kind: u32, correction: i32, metres: f64) -> bool
    ensures { result ≡ domain.good_altitude kind correction metres }
{
    let good = within(-ALTITUDE, ALTITUDE, metres);
    if kind == 1 {
        return good_correction(correction) && good;
    }
    kind == 2 && correction == 0 && good
}
