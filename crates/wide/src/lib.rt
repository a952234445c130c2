// The floored root of a whole number of up to 128 bits: `isqrt` of solve.rs.
#![tactic(auto)]

ghost use Rattle.std.specs.Prelude.{◌≡◌};
ghost use Rattle.binary64.specs.Root.{floor_root};

// The greatest whole number whose square is not above `value`.
pub fn isqrt(value: u128) -> u64
    ensures { result ≡ floor_root value }
{
    value.isqrt() as u64
}
