// What stands in the fields of a record that meets the rules.
ghost use Rattle.std.specs.Prelude.{◌≡◌, true, ◌+◌, ◌≤◌, length};
ghost use Rattle.binary64.specs.Steps.{is_finite};
ghost use Rattle.words.specs.Words.{f64_at};
ghost use Rattle.reader.specs.Tests.{finite, meets_rules, good_fix};
ghost use Rattle.reader.specs.Read as reads;

use crate::content::Content;
use geo::Geodetic;
use problem::Altitude;
use record::Fix;

// The f64 from byte k on. A rule has shown that it is a number, so that its bits need no test here.
fn number_at(s: &[u8], k: usize) -> f64
    requires { (k + 8 ≤ length s.now) × (is_finite (f64_at s.now k) ≡ true) }
    ensures { result ≡ f64_at s.now k }
{
    f64::from_bits(words::u64_at(s, k))
}

fn three_at(s: &[u8], k: usize) -> [f64; 3]
    requires { (k + 24 ≤ length s.now) × (finite s.now k 3 ≡ true) }
    ensures { result ≡ reads.three_at s.now k }
{
    [number_at(s, k), number_at(s, k + 8), number_at(s, k + 16)]
}

// The altitude of this kind and these metres.
pub fn altitude_of(kind: u32, metres: f64) -> Altitude
    ensures { result ≡ reads.altitude_of kind metres }
{
    if kind == 1 {
        return Altitude::Barometric(metres);
    }
    if kind == 2 {
        return Altitude::Gnss(metres);
    }
    Altitude::None
}

fn fix_at(s: &[u8]) -> Fix
    requires { (length s.now ≡ 176) × (good_fix s.now ≡ true) }
    ensures { result ≡ reads.fix_at s.now }
{
    let mask = words::u32_at(s, 12);
    let dof = words::u32_at(s, 4);
    let ecef = three_at(s, 16);
    let t = number_at(s, 40);
    let position = Geodetic {
        lat_deg: number_at(s, 48),
        lon_deg: number_at(s, 56),
        height_m: number_at(s, 64),
    };
    let transmit_ps = words::i64_at(s, 72);
    let r0 = three_at(s, 80);
    let r1 = three_at(s, 104);
    let r2 = three_at(s, 128);
    let chi2 = number_at(s, 152);
    Fix {
        mask,
        dof,
        ecef,
        t,
        position,
        transmit_ps,
        r0,
        r1,
        r2,
        chi2,
    }
}

// What the record of a refusal holds.
pub fn refused(answer: u32, detail: u32, n: u32) -> Content
    ensures { result ≡ reads.refused answer detail n }
{
    let none = [0.0; 3];
    let position = Geodetic {
        lat_deg: 0.0,
        lon_deg: 0.0,
        height_m: 0.0,
    };
    let fix = Fix {
        mask: 0,
        dof: 0,
        ecef: none,
        t: 0.0,
        position,
        transmit_ps: 0,
        r0: none,
        r1: none,
        r2: none,
        chi2: 0.0,
    };
    Content {
        answer,
        detail,
        n,
        altitude: Altitude::None,
        fix,
    }
}

// What a record holds.
pub fn content_at(s: &[u8]) -> Content
    requires { (length s.now ≡ 176) × (meets_rules s.now ≡ true) }
    ensures { result ≡ reads.content_at s.now }
{
    let answer = words::u32_at(s, 0);
    let detail = words::u32_at(s, 4);
    let n = words::u32_at(s, 8);
    if answer != 0 {
        return refused(answer, detail, n);
    }
    let altitude = altitude_of(s[162] as u32, number_at(s, 168));
    let fix = fix_at(s);
    Content {
        answer: 0,
        detail,
        n,
        altitude,
        fix,
    }
}
