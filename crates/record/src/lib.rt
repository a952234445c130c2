// The record of 176 bytes that a solve writes: document 01, 'The fix: 176 bytes' and 'When there is no
// fix'.
#![tactic(auto)]

mod content;

ghost use Rattle.std.specs.Prelude.{◌≡◌, ◌≤◌, length};
ghost use Rattle.record.specs.Record.{put_three, written, head, kind, metres, foot, refusal, fix, stored};

pub use content::Fix;
use problem::Altitude;

// `SPEC_VERSION` of clock.rs.
pub const SPEC_VERSION: u16 = 8;

// The three numbers that every record begins with.
fn put_head(r: &mut [u8; 176], answer: u32, detail: u32, n: u32)
    ensures { r.new ≡ written r.old (head answer detail n) }
{
    words::put_u32(r, 0, answer);
    words::put_u32(r, 4, detail);
    words::put_u32(r, 8, n);
}

// Three numbers, one after the other.
fn put_three(r: &mut [u8; 176], k: usize, v: [f64; 3])
    requires { k ≤ 152 }
    ensures { r.new ≡ put_three r.old k v }
{
    words::put_f64(r, k, v[0]);
    words::put_f64(r, k + 8, v[1]);
    words::put_f64(r, k + 16, v[2]);
}

// The number of the altitude's kind.
pub fn kind(altitude: Altitude) -> u8
    ensures { result ≡ kind altitude }
{
    match altitude {
        Altitude::None => 0,
        Altitude::Barometric(metres) => 1,
        Altitude::Gnss(metres) => 2,
    }
}

// The altitude's metres, and 0, whose bytes are zeros, where there is none.
pub fn metres(altitude: Altitude) -> f64
    ensures { result ≡ metres altitude }
{
    match altitude {
        Altitude::None => 0.0,
        Altitude::Barometric(metres) => metres,
        Altitude::Gnss(metres) => metres,
    }
}

// The version and the altitude, with which a fix record ends.
fn put_foot(r: &mut [u8; 176], altitude: Altitude)
    ensures { r.new ≡ written r.old (foot altitude) }
{
    words::put_u16(r, 160, SPEC_VERSION);
    r[162] = kind(altitude);
    words::put_f64(r, 168, metres(altitude));
}

// The record of a fix from n receptions.
pub fn fix(n: u32, altitude: Altitude, shown: Fix) -> [u8; 176]
    ensures { result ≡ fix n altitude shown }
{
    let ecef = shown.ecef;
    let position = shown.position;
    let r0 = shown.r0;
    let r1 = shown.r1;
    let r2 = shown.r2;
    let mut r = [0u8; 176];
    put_head(&mut r, 0, shown.dof, n);
    words::put_u32(&mut r, 12, shown.mask);
    put_three(&mut r, 16, ecef);
    words::put_f64(&mut r, 40, shown.t);
    words::put_f64(&mut r, 48, position.lat_deg);
    words::put_f64(&mut r, 56, position.lon_deg);
    words::put_f64(&mut r, 64, position.height_m);
    words::put_i64(&mut r, 72, shown.transmit_ps);
    put_three(&mut r, 80, r0);
    put_three(&mut r, 104, r1);
    put_three(&mut r, 128, r2);
    words::put_f64(&mut r, 152, shown.chi2);
    put_foot(&mut r, altitude);
    r
}

// The record of a refusal: number, detail and, for 1 to 9, which come from the solve itself, n.
pub fn refusal(number: u32, detail: u32, n: u32) -> [u8; 176]
    ensures { result ≡ refusal number detail n }
{
    let mut r = [0u8; 176];
    if number <= 9 {
        put_head(&mut r, number, detail, n);
        return r;
    }
    put_head(&mut r, number, detail, 0);
    r
}

// A record, into the first 176 bytes of the output. The rest stays.
pub fn store(out: &mut [u8], bytes: [u8; 176])
    requires { 176 ≤ length out.old }
    ensures { out.new ≡ stored out.old bytes }
{
    out[..176].copy_from_slice(&bytes);
}
