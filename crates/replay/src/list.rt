// Receptions taken apart from the bytes of receptions.bin, as a caller in C has them in a list of his own, and the call
// with such a list. The bytes are read here anew, not by the crate that reads them for the solve.
ghost use Rattle.std.specs.Prelude.{◌+◌, ◌*◌, ◌≤◌, length};

use receptions::{ObservationId, Reception};

// The bytes of a reception, by document 02.
pub const RECEPTION: usize = 132;

// The most receptions that a recorded input has: 16,384 bytes hold no more.
pub const MOST: usize = 124;

// 32 bytes from byte k on.
fn part_at(s: &[u8], k: usize) -> [u8; 32]
    requires { k + 32 ≤ length s.now }
{
    let mut out = [0u8; 32];
    out.copy_from_slice(&s[k..k + 32]);
    out
}

// "receiver 32 bytes, epoch u32, timestamp u64, message 32 bytes"
fn id_at(s: &[u8], at: usize) -> ObservationId
    requires { at + 76 ≤ length s.now }
{
    let receiver = part_at(s, at);
    let message = part_at(s, at + 44);
    ObservationId {
        receiver,
        epoch: words::u32_at(s, at + 32),
        timestamp: words::u64_at(s, at + 36),
        message,
    }
}

fn reception_at(s: &[u8], at: usize) -> Reception
    requires { at + 132 ≤ length s.now }
{
    let id = id_at(s, at);
    let x = words::i64_at(s, at + 84);
    let y = words::i64_at(s, at + 92);
    let z = words::i64_at(s, at + 100);
    let site = [x, y, z];
    Reception {
        id,
        time: words::i64_at(s, at + 76),
        site_mm: site,
        z: words::f64_at(s, at + 108),
        noise_m2: words::f64_at(s, at + 116),
        filler: words::u64_at(s, at + 124),
    }
}

// A reception of zeros.
fn blank() -> Reception {
    let receiver = [0u8; 32];
    let message = [0u8; 32];
    let id = ObservationId {
        receiver,
        epoch: 0,
        timestamp: 0,
        message,
    };
    let site = [0i64; 3];
    Reception {
        id,
        time: 0,
        site_mm: site,
        z: 0.0,
        noise_m2: 0.0,
        filler: 0,
    }
}

// The first n receptions of these bytes, and zeros past them.
pub(crate) fn of_bytes(s: &[u8], n: usize) -> [Reception; 124]
    requires { (132 * n ≤ length s.now) × (n ≤ 124) }
{
    let r = blank();
    let mut list = [r; 124];
    for i in 0..n {
        list[i] = reception_at(s, RECEPTION * i);
    }
    list
}

// The first n receptions of a list.
pub(crate) fn first(list: &[Reception; 124], n: usize) -> &[Reception]
    requires { n ≤ 124 }
{
    &list[..n]
}
