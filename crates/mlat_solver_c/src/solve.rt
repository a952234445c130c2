// The solve, for callers in C.
ghost use Rattle.entry.specs.Reply as reply;

use receptions::Reception;

// Solves one transmission's problem from the bytes of document 01's four files, and writes the record of
// 176 bytes at the start of `out`. Of `present` bit 0 says that there is a clock covariance, bit 1 an
// altitude and bit 2 a reference: an absent one's bytes are not read. Gives document 01's answer number.
#[unsafe(no_mangle)]
pub extern "C" fn mlat_solve(
    receptions: &[u8],
    clock: &[u8],
    altitude: &[u8],
    reference: &[u8],
    present: u32,
    out: &mut [u8],
) -> u32
    ensures { reply.Promise (reply.lent receptions.now clock.now altitude.now
        reference.now present) out.old result out.new }
{
    mlat_solver::mlat_solve(receptions, clock, altitude, reference, present, out)
}

// The same, with the caller's own list of receptions in place of receptions.bin.
#[unsafe(no_mangle)]
pub extern "C" fn mlat_solve_receptions(
    receptions: &[Reception],
    clock: &[u8],
    altitude: &[u8],
    reference: &[u8],
    present: u32,
    out: &mut [u8],
) -> u32
    ensures { reply.Promise (reply.listed receptions.now clock.now altitude.now
        reference.now present) out.old result out.new }
{
    mlat_solver::mlat_solve_receptions(receptions, clock, altitude, reference, present, out)
}
