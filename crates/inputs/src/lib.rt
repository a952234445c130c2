// The four inputs of a solve: what document 01 turns away of them, and the problem that they hold.
#![tactic(auto)]

mod domain;
mod files;

ghost use Rattle.std.specs.Prelude.{◌≡◌, true, List, ℕ, ◌+◌, ◌*◌, ◌-◌, ◌/◌, ◌%◌, ◌<◌, ◌≤◌, length, set};
ghost use Rattle.dense.specs.Entries.{nth};
ghost use Rattle.geo.specs.Geo.{from_mm};
ghost use Rattle.receptions.specs.declared.Reception as reception;
ghost use Rattle.receptions.specs.Receptions.{fill_to, floats, fields_of};
ghost use Rattle.receptions.specs.Held.{Holds, site_in};
ghost use Rattle.inputs.specs.declared.Fault.TheVariants.{Disorder, BadField};
ghost use Rattle.inputs.specs.Faults as faults;
ghost use Rattle.inputs.specs.Inputs as inputs;
ghost use Rattle.inputs.specs.InDomain.{Read};
ghost use Rattle.inputs.specs.Held.{Passing};

use problem::{Altitude, Problem};
use receptions::Fields;
use refusals::Refusal;

// What is wrong with the inputs. A bad field's number is the place of its reception, 100 and the
// row of its clock entry, or 200 for the altitude; a disorder's is the place of the reception whose
// identity is not above the one before.
#[derive(Clone, Copy, Debug, PartialEq, Eq)]
pub enum Fault {
    TornInput,
    TooMany,
    Disorder(u32),
    BadField(u32),
    ClockSize,
    Uncovered,
}

// Which of the inputs that may be absent are there. Absent receptions are empty ones.
#[derive(Clone, Copy)]
pub struct Given {
    pub clock: bool,
    pub altitude: bool,
    pub reference: bool,
}

impl Fault {
    // Document 01's number of the refusal.
    pub fn number(self) -> u32
        ensures { result ≡ faults.number_of self }
    {
        let why = match self {
            Fault::TornInput => Refusal::TornInput,
            Fault::TooMany => Refusal::TooMany,
            Fault::Disorder(_) => Refusal::Disorder,
            Fault::BadField(_) => Refusal::BadField,
            Fault::ClockSize => Refusal::ClockSize,
            Fault::Uncovered => Refusal::Uncovered,
        };
        why.number()
    }

    // Document 01's detail of the refusal.
    pub fn detail(self) -> u32
        ensures { result ≡ faults.detail_of self }
    {
        match self {
            Fault::Disorder(i) => i,
            Fault::BadField(place) => place,
            Fault::TornInput | Fault::TooMany | Fault::ClockSize | Fault::Uncovered => 0,
        }
    }
}

// Nothing, or the fault unless the inputs are good.
fn unless(good: bool, fault: Fault) -> Result<(), Fault>
    ensures { result ≡ faults.unless good fault }
{
    if good { Ok(()) } else { Err(fault) }
}

// The three coordinates of site i.
fn site_in(mm: &[i64; 96], i: usize) -> [i64; 3]
    requires { i < 32 }
    ensures { result ≡ site_in mm.now i }
{
    let at = 3 * i;
    [mm[at], mm[at + 1], mm[at + 2]]
}

// Reception i, whose fields are in the domain or not, and whose identity is above the one before or not.
fn check_reception(good: bool, above: bool, i: usize) -> Result<(), Fault>
    requires { i < 32 }
    ensures { result ≡ faults.or_else (faults.unless good (BadField i)) (faults.unless above (Disorder i)) }
{
    let place = i as u32;
    unless(good, Fault::BadField(place))?;
    unless(above, Fault::Disorder(place))
}

fn check_receptions(f: Fields, n: usize) -> Result<(), Fault>
    requires { n ≤ 32 }
    ensures { (at : ℕ → reception.Reception) → f ≡ fields_of at n
        → result ≡ faults.first_to (inputs.check_reception at) n }
{
    for i in 0..n {
        let site = site_in(&f.site_mm, i);
        let good = domain::good_reception(f.time[i], site, f.z[i], f.noise_m2[i], f.filler[i]);
        let above = sets::has(f.ascending, i);
        check_reception(good, above, i)?;
    }
    Ok(())
}

// Whether the entries of row i on and right of the diagonal are in the domain.
fn good_row(clock: &[u8], n: usize, i: usize) -> bool
    requires { (n ≤ 32) × (i < n) × (length clock.now ≡ 8 * (n * n)) }
    ensures { result ≡ inputs.good_row_to clock.now n i (n - i) }
{
    for j in i..n {
        if !domain::good_entry(i, j, files::entry_at(clock, n, i, j)) {
            return false;
        }
    }
    true
}

fn check_row(clock: &[u8], n: usize, i: usize) -> Result<(), Fault>
    requires { (n ≤ 32) × (i < n) × (length clock.now ≡ 8 * (n * n)) }
    ensures { result ≡ inputs.check_row clock.now n i }
{
    unless(good_row(clock, n, i), Fault::BadField(100 + i as u32))
}

fn check_rows(clock: &[u8], n: usize) -> Result<(), Fault>
    requires { (n ≤ 32) × (length clock.now ≡ 8 * (n * n)) }
    ensures { result ≡ faults.first_to (inputs.check_row clock.now n) n }
{
    for i in 0..n {
        check_row(clock, n, i)?;
    }
    Ok(())
}

fn check_clock(there: bool, clock: &[u8], n: usize) -> Result<(), Fault>
    requires { n ≤ 32 }
    ensures { result ≡ inputs.check_clock (inputs.if_there there clock.now) n }
{
    if !there {
        return Ok(());
    }
    unless(clock.len() == 8 * (n * n), Fault::ClockSize)?;
    check_rows(clock, n)
}

fn check_altitude(there: bool, altitude: &[u8]) -> Result<(), Fault>
    requires { inputs.sized 16 (inputs.if_there there altitude.now) ≡ true }
    ensures { result ≡ inputs.check_altitude (inputs.if_there there altitude.now) }
{
    if !there {
        return Ok(());
    }
    let kind = files::kind_at(altitude);
    let correction = files::correction_at(altitude);
    let good = domain::good_altitude(kind, correction, files::metres_at(altitude));
    unless(good, Fault::BadField(200))
}

// Absent, or of so many bytes.
fn sized(there: bool, bytes: &[u8], size: usize) -> bool
    ensures { result ≡ inputs.sized size (inputs.if_there there bytes.now) }
{
    !there || bytes.len() == size
}

// Whether every input came whole: the receptions, and those of the others that are there.
#[tactic(auto, unfolding(crate::specs::Inputs::untorn))]
fn untorn(whole: bool, g: Given, altitude: &[u8], reference: &[u8]) -> bool
    ensures { (n : ℕ) (at : ℕ → reception.Reception) (clock : List ℕ) → result
        ≡ inputs.untorn (inputs.inputs_of whole n at g clock altitude.now reference.now) }
{
    whole
        && sized(g.altitude, altitude, files::ALTITUDE)
        && sized(g.reference, reference, files::REFERENCE)
}

// What document 01 turns the inputs away for, in its order. Its 14 comes before, with the output.
// `whole` says that the receptions came whole; of over 32 none is read.
pub fn check_inputs(
    f: Fields,
    whole: bool,
    n: usize,
    g: Given,
    clock: &[u8],
    altitude: &[u8],
    reference: &[u8],
) -> Result<(), Fault>
    ensures { (at : ℕ → reception.Reception) → Holds f n at → result
        ≡ inputs.check_inputs (inputs.inputs_of whole n at g
        clock.now altitude.now reference.now) }
{
    unless(untorn(whole, g, altitude, reference), Fault::TornInput)?;
    unless(n <= 32, Fault::TooMany)?;
    check_receptions(f, n)?;
    check_clock(g.clock, clock, n)?;
    check_altitude(g.altitude, altitude)?;
    unless(g.clock, Fault::Uncovered)
}

fn put_metres(out: &mut [f64; 96], i: usize, site: [f64; 3])
    requires { i < 32 }
    ensures { out.new
        ≡ set (set (set out.old (3 * i) (nth site 0)) (3 * i + 1) (nth site 1)) (3 * i + 2) (nth site 2) }
{
    let at = 3 * i;
    out[at] = site[0];
    out[at + 1] = site[1];
    out[at + 2] = site[2];
}

// The metres of the first n sites.
fn metres_of(mm: &[i64; 96], n: usize) -> [f64; 96]
    requires { n ≤ 32 }
    ensures { result
        ≡ fill_to (floats 96) (λ k. nth (from_mm (site_in mm.now (k / 3))) (k % 3)) (3 * n) }
{
    let mut out = [0.0; 96];
    for i in 0..n {
        let site = site_in(mm, i);
        put_metres(&mut out, i, geo::from_mm(site));
    }
    out
}

// Entry k of the clock covariance, row by row: 0 left of the diagonal, where nothing is read.
fn upper_at(clock: &[u8], n: usize, k: usize) -> f64
    requires { (n ≤ 32) × (k < n * n) × (length clock.now ≡ 8 * (n * n)) }
    ensures { result ≡ inputs.upper_at clock.now n k }
{
    let i = k / n;
    let j = k % n;
    if i <= j {
        return files::entry_at(clock, n, i, j);
    }
    0.0
}

// The clock covariance of n receptions, into an array of zeros.
fn put_covariance(clock: &[u8], n: usize, out: &mut [f64; 1024])
    requires { (n ≤ 32) × (length clock.now ≡ 8 * (n * n)) × (out.old ≡ floats 1024) }
    ensures { out.new ≡ fill_to (floats 1024) (inputs.upper_at clock.now n) (n * n) }
{
    for k in 0..n * n {
        out[k] = upper_at(clock, n, k);
    }
}

// Barometric metres with a correction in centimetres. 0 is not added: -0 metres stay -0.
fn corrected(metres: f64, correction: i32) -> f64
    ensures { result ≡ inputs.corrected metres correction }
{
    if correction == 0 {
        return metres;
    }
    metres + correction as f64 / 100.0
}

// The altitude that is solved with.
fn altitude_of(there: bool, altitude: &[u8]) -> Altitude
    requires { inputs.sized 16 (inputs.if_there there altitude.now) ≡ true }
    ensures { result ≡ inputs.altitude_of (inputs.if_there there altitude.now) }
{
    if there {
        let metres = files::metres_at(altitude);
        if files::kind_at(altitude) == 1 {
            let correction = files::correction_at(altitude);
            return Altitude::Barometric(corrected(metres, correction));
        }
        return Altitude::Gnss(metres);
    }
    Altitude::None
}

// The altitude that is shown: as given.
fn shown_of(there: bool, altitude: &[u8]) -> Altitude
    requires { inputs.sized 16 (inputs.if_there there altitude.now) ≡ true }
    ensures { result ≡ inputs.shown_of (inputs.if_there there altitude.now) }
{
    if there {
        let metres = files::metres_at(altitude);
        if files::kind_at(altitude) == 1 {
            return Altitude::Barometric(metres);
        }
        return Altitude::Gnss(metres);
    }
    Altitude::None
}

fn reference_of(there: bool, reference: &[u8]) -> i64
    requires { inputs.sized 8 (inputs.if_there there reference.now) ≡ true }
    ensures { result ≡ inputs.reference_of (inputs.if_there there reference.now) }
{
    if there {
        return words::i64_at(reference, 0);
    }
    0
}

// The problem of inputs that nothing is wrong with.
pub fn problem_of(
    f: Fields,
    n: usize,
    g: Given,
    clock: &[u8],
    altitude: &[u8],
    reference: &[u8],
) -> Problem
    requires { Passing f n g clock.now altitude.now reference.now }
    ensures { (at : ℕ → reception.Reception) → f ≡ fields_of at n → Read (inputs.inputs_of true n at g
        clock.now altitude.now reference.now) result }
{
    let site = metres_of(&f.site_mm, n);
    let solved_with = altitude_of(g.altitude, altitude);
    let reference_ps = reference_of(g.reference, reference);
    let shown = shown_of(g.altitude, altitude);
    let time = f.time;
    let site_mm = f.site_mm;
    let z = f.z;
    let noise_m2 = f.noise_m2;
    let mut p = Problem {
        n,
        time,
        site_mm,
        site,
        z,
        noise_m2,
        clock_m2: [0.0; 1024],
        altitude: solved_with,
        reference_ps,
        shown,
    };
    put_covariance(clock, n, &mut p.clock_m2);
    p
}
