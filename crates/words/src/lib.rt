// Little-endian numbers in lists of bytes, as the files of document 01 hold them: the number that
// stands from byte k on.
#![tactic(auto)]

ghost use Rattle.std.specs.Prelude.{◌≡◌, ◌+◌, ◌≤◌, length};
ghost use Rattle.words.specs.Words.{u16_at, u32_at, u64_at, i32_at, i64_at, f64_at};
ghost use Rattle.words.specs.Words.{put_u16, put_u32, put_u64, put_i64, put_f64};

pub fn u16_at(s: &[u8], k: usize) -> u16
    requires { k + 2 ≤ length s.now }
    ensures { result ≡ u16_at s.now k }
{
    u16::from_le_bytes([s[k], s[k + 1]])
}

pub fn u32_at(s: &[u8], k: usize) -> u32
    requires { k + 4 ≤ length s.now }
    ensures { result ≡ u32_at s.now k }
{
    u32::from_le_bytes([s[k], s[k + 1], s[k + 2], s[k + 3]])
}

pub fn u64_at(s: &[u8], k: usize) -> u64
    requires { k + 8 ≤ length s.now }
    ensures { result ≡ u64_at s.now k }
{
    u64::from_le_bytes([
        s[k],
        s[k + 1],
        s[k + 2],
        s[k + 3],
        s[k + 4],
        s[k + 5],
        s[k + 6],
        s[k + 7],
    ])
}

pub fn i32_at(s: &[u8], k: usize) -> i32
    requires { k + 4 ≤ length s.now }
    ensures { result ≡ i32_at s.now k }
{
    u32_at(s, k).cast_signed()
}

pub fn i64_at(s: &[u8], k: usize) -> i64
    requires { k + 8 ≤ length s.now }
    ensures { result ≡ i64_at s.now k }
{
    u64_at(s, k).cast_signed()
}

// Every not-a-number reads as the one that counts.
pub fn f64_at(s: &[u8], k: usize) -> f64
    requires { k + 8 ≤ length s.now }
    ensures { result ≡ f64_at s.now k }
{
    binary64::from_bits(u64_at(s, k))
}

pub fn put_u16(s: &mut [u8], k: usize, x: u16)
    requires { k + 2 ≤ length s.old }
    ensures { s.new ≡ put_u16 s.old k x }
{
    s[k..k + 2].copy_from_slice(&x.to_le_bytes());
}

pub fn put_u32(s: &mut [u8], k: usize, x: u32)
    requires { k + 4 ≤ length s.old }
    ensures { s.new ≡ put_u32 s.old k x }
{
    s[k..k + 4].copy_from_slice(&x.to_le_bytes());
}

pub fn put_u64(s: &mut [u8], k: usize, x: u64)
    requires { k + 8 ≤ length s.old }
    ensures { s.new ≡ put_u64 s.old k x }
{
    s[k..k + 8].copy_from_slice(&x.to_le_bytes());
}

pub fn put_i64(s: &mut [u8], k: usize, x: i64)
    requires { k + 8 ≤ length s.old }
    ensures { s.new ≡ put_i64 s.old k x }
{
    put_u64(s, k, x.cast_unsigned());
}

// A not-a-number is written 7FF8000000000000.
pub fn put_f64(s: &mut [u8], k: usize, x: f64)
    requires { k + 8 ≤ length s.old }
    ensures { s.new ≡ put_f64 s.old k x }
{
    put_u64(s, k, binary64::to_bits(x));
}
