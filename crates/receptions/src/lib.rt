// Receptions, unpacked into arrays by field: those of receptions.bin, and those of a caller's list.
#![tactic(auto)]

mod identity;

ghost use Rattle.std.specs.Prelude.{◌≡◌, cond, ℕ, ◌+◌, ◌*◌, ◌^◌, ◌<◌, ◌≤◌, pos, length, set, get_or};
ghost use Rattle.receptions.specs.declared.Reception as reception;
ghost use Rattle.receptions.specs.Receptions.{reception_bytes, part_at, id_at, reception_at};
ghost use Rattle.receptions.specs.Held.{blank_id};
ghost use Rattle.receptions.specs.Receptions.{listed_at, fields_of};

use identity::ascends;

// `ObservationId` of the source: which message, at which receiver.
#[repr(C)]
#[derive(Clone, Copy, PartialEq, Eq, PartialOrd, Ord)]
pub struct ObservationId {
    pub receiver: [u8; 32],
    pub epoch: u32,
    pub timestamp: u64,
    pub message: [u8; 32],
}

// A reception as its 132 bytes have it: `Item` of solve.rs, and eight bytes that are to be zero. A
// caller's list is laid out as C lays it out: 136 bytes a reception, four of them after the epoch.
#[repr(C)]
#[derive(Clone, Copy)]
pub struct Reception {
    pub id: ObservationId,
    pub time: i64,
    pub site_mm: [i64; 3],
    pub z: f64,
    pub noise_m2: f64,
    pub filler: u64,
}

// The receptions by field, the three coordinates of a site one after the other, and zeros past them. Of the
// identities their order is kept: bit i of `ascending` is set where reception i's is above the one before, and
// bit 0 where there is a first.
#[derive(Clone, Copy)]
pub struct Fields {
    pub ascending: u32,
    pub time: [i64; 32],
    pub site_mm: [i64; 96],
    pub z: [f64; 32],
    pub noise_m2: [f64; 32],
    pub filler: [u64; 32],
}

// The bytes of a reception in receptions.bin, by document 02.
pub const RECEPTION_BYTES: usize = 132;

// An identity of zeros.
fn blank_id() -> ObservationId
    ensures { result ≡ blank_id }
{
    let receiver = [0u8; 32];
    let message = [0u8; 32];
    ObservationId {
        receiver,
        epoch: 0,
        timestamp: 0,
        message,
    }
}

fn put_site(out: &mut [i64; 96], i: usize, site: [i64; 3])
    requires { i < 32 }
    ensures { out.new ≡ set (set (set out.old (3 * i) (get_or site 0 (pos 0))) (3 * i + 1)
        (get_or site 1 (pos 0))) (3 * i + 2) (get_or site 2 (pos 0)) }
{
    let at = 3 * i;
    out[at] = site[0];
    out[at + 1] = site[1];
    out[at + 2] = site[2];
}

// The bits of the receptions before i, and that of reception i.
fn marked(bits: u32, i: usize, above: bool) -> u32
    requires { (i < 32) × (bits < 2 ^ i) }
    ensures { result ≡ cond above 1 0 * 2 ^ i + bits }
{
    if above {
        return (1u32 << i) + bits;
    }
    bits
}

// The first n receptions, by field: `at` gives each.
fn by_field<F: Fn(usize) -> Reception>(n: usize, at: F) -> Fields
    requires n_bound { n ≤ 32 }
    requires callable { (i : ℕ) → i < n → F.pre at i }
    ensures { (f : ℕ → reception.Reception) → ((i : ℕ) (r : reception.Reception) → i < n → F.post at i r → r ≡ f i)
        → result ≡ fields_of f n }
{
    let mut last = blank_id();
    let mut ascending = 0u32;
    let mut time = [0i64; 32];
    let mut site_mm = [0i64; 96];
    let mut z = [0.0; 32];
    let mut noise_m2 = [0.0; 32];
    let mut filler = [0u64; 32];
    for i in 0..n {
        let r = at(i);
        ascending = marked(ascending, i, ascends(last, r.id, i));
        last = r.id;
        time[i] = r.time;
        put_site(&mut site_mm, i, r.site_mm);
        z[i] = r.z;
        noise_m2[i] = r.noise_m2;
        filler[i] = r.filler;
    }
    Fields {
        ascending,
        time,
        site_mm,
        z,
        noise_m2,
        filler,
    }
}

// 32 bytes from byte k on.
fn part_at(s: &[u8], k: usize) -> [u8; 32]
    requires { k + 32 ≤ length s.now }
    ensures { result ≡ part_at s.now k }
{
    let mut out = [0u8; 32];
    out.copy_from_slice(&s[k..k + 32]);
    out
}

fn id_at(receptions: &[u8], at: usize) -> ObservationId
    requires { at + 76 ≤ length receptions.now }
    ensures { result ≡ id_at receptions.now at }
{
    let receiver = part_at(receptions, at);
    let message = part_at(receptions, at + 44);
    ObservationId {
        receiver,
        epoch: words::u32_at(receptions, at + 32),
        timestamp: words::u64_at(receptions, at + 36),
        message,
    }
}

fn reception_at(receptions: &[u8], i: usize) -> Reception
    requires { reception_bytes * i + reception_bytes ≤ length receptions.now }
    ensures { result ≡ reception_at receptions.now i }
{
    let at = RECEPTION_BYTES * i;
    let id = id_at(receptions, at);
    let x = words::i64_at(receptions, at + 84);
    let y = words::i64_at(receptions, at + 92);
    let z = words::i64_at(receptions, at + 100);
    let site = [x, y, z];
    Reception {
        id,
        time: words::i64_at(receptions, at + 76),
        site_mm: site,
        z: words::f64_at(receptions, at + 108),
        noise_m2: words::f64_at(receptions, at + 116),
        filler: words::u64_at(receptions, at + 124),
    }
}

// The first n receptions of receptions.bin.
pub fn of_bytes(receptions: &[u8], n: usize) -> Fields
    requires { (reception_bytes * n ≤ length receptions.now) × (n ≤ 32) }
    ensures { result ≡ fields_of (reception_at receptions.now) n }
{
    by_field(n, |i| reception_at(receptions, i))
}

// The first n receptions of a caller's list.
pub fn of_list(receptions: &[Reception], n: usize) -> Fields
    requires { (n ≤ length receptions.now) × (n ≤ 32) }
    ensures { result ≡ fields_of (listed_at receptions.now) n }
{
    by_field(n, |i| receptions[i])
}
