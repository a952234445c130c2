// Why a receiver is missing from a fix, for callers in C: document 02, item 9.
ghost use Rattle.std.specs.Prelude.{◌≡◌};
ghost use Rattle.entry.specs.Reply.{lent};
ghost use Rattle.why.specs.Why as why;

// Solves one transmission's problem from the bytes of document 01's four files, as `mlat_solve` does, and writes
// the states of its receptions into `states`, 20 bytes each, in input order: 14 where it is shorter than 640
// bytes, and then `detail` stays. A refused problem has no states, and `states` stays.
#[unsafe(no_mangle)]
pub extern "C" fn mlat_why(
    receptions: &[u8],
    clock: &[u8],
    altitude: &[u8],
    reference: &[u8],
    present: u32,
    states: &mut [u8],
    detail: &mut u32,
) -> u32
    ensures answer { result ≡ why.answer (lent
        receptions.now clock.now altitude.now reference.now present)
        states.old }
    ensures states { states.new ≡ why.output (lent
        receptions.now clock.now altitude.now reference.now present)
        states.old }
    ensures detail { detail.new ≡ why.detail_after (lent
        receptions.now clock.now altitude.now reference.now present)
        states.old detail.old }
{
    mlat_solver::mlat_why(
        receptions, clock, altitude, reference, present, states, detail,
    )
}
