// The order of identities, by their four fields in turn: as Rust derives it for `ObservationId` of obs.rs.
ghost use Rattle.std.specs.Prelude.{◌≡◌, ◌||◌, eqb};
ghost use Rattle.receptions.specs.Identities as identities;

use crate::ObservationId;

// Whether a comes before b.
fn before(a: ObservationId, b: ObservationId) -> bool
    ensures { result ≡ identities.before a b }
{
    a.cmp(&b).is_lt()
}

// Whether the identity of reception i is above the last; the first has none before it.
pub fn ascends(last: ObservationId, id: ObservationId, i: usize) -> bool
    ensures { result ≡ (eqb i 0 || identities.before last id) }
{
    i == 0 || before(last, id)
}
