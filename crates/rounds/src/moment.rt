// The transmit time, in whole picoseconds.
ghost use Rattle.std.specs.Prelude.{◌≡◌};
ghost use Rattle.rounds.specs.Finish.{transmit_ps};
ghost use Rattle.rounds.specs.Held.{moment_of};

// Picoseconds in a second: of clock.rs.
const PS: f64 = 1_000_000_000_000.0;

// The i64 range is 2^64 long.
const RANGE: f64 = 18446744073709551616.0;

// The reference and the nearest whole number of picoseconds to t metres of light, exactly, where an i64 holds
// it. As Rust casts it, a not-a-number counts as 0.
pub fn transmit(reference: i64, t: f64) -> Option<i64>
    ensures { result ≡ moment_of (transmit_ps reference t) }
{
    let ps = binary64::round(t / geo::C * PS);
    if ps != ps {
        return Some(reference);
    }
    if ps > -1.0 {
        if ps < RANGE {
            return reference.checked_add_unsigned(std::num::truncating_f64_to_u64(ps));
        }
        return None;
    }
    let back = -ps;
    if back < RANGE {
        return reference.checked_sub_unsigned(std::num::truncating_f64_to_u64(back));
    }
    None
}
