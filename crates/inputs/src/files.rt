// Where the fields of clock.bin and altitude.bin stand.
ghost use Rattle.std.specs.Prelude.{◌≡◌, ◌*◌, ◌<◌, ◌≤◌, length};
ghost use Rattle.inputs.specs.Inputs.{entry_at, kind_at, correction_at, metres_at};

// The bytes of altitude.bin and of reference.bin.
pub const ALTITUDE: usize = 16;

pub const REFERENCE: usize = 8;

// The clock covariance of receptions i and j of n.
pub fn entry_at(clock: &[u8], n: usize, i: usize, j: usize) -> f64
    requires { (n ≤ 32) × (i < n) × (j < n) × (length clock.now ≡ 8 * (n * n)) }
    ensures { result ≡ entry_at clock.now n i j }
{
    words::f64_at(clock, 8 * (i * n + j))
}

// The kind byte of altitude.bin with the three bytes after it.
pub fn kind_at(altitude: &[u8]) -> u32
    requires { length altitude.now ≡ 16 }
    ensures { result ≡ kind_at altitude.now }
{
    words::u32_at(altitude, 0)
}

// The correction of barometric metres, centimetres.
pub fn correction_at(altitude: &[u8]) -> i32
    requires { length altitude.now ≡ 16 }
    ensures { result ≡ correction_at altitude.now }
{
    words::i32_at(altitude, 4)
}

pub fn metres_at(altitude: &[u8]) -> f64
    requires { length altitude.now ≡ 16 }
    ensures { result ≡ metres_at altitude.now }
{
    words::f64_at(altitude, 8)
}
