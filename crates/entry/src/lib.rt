// The solve: four inputs to an answer number and a record of 176 bytes.
#![tactic(auto)]

ghost use Rattle.std.specs.Prelude.{◌≡◌, cond, ℕ, ◌<◌, leb};
ghost use Rattle.receptions.specs.declared.Reception as reception;
ghost use Rattle.receptions.specs.Held.{Holds, Filled};
ghost use Rattle.inputs.specs.Faults.{number_of};
ghost use Rattle.inputs.specs.Inputs.{inputs_of};
ghost use Rattle.rounds.specs.Setting as setting;
ghost use Rattle.rounds.specs.Held.{as_answer};
ghost use Rattle.record.specs.declared.content.Fix as content;
ghost use Rattle.record.specs.Record as shown;
ghost use Rattle.entry.specs.Reply as reply;

use inputs::{Fault, Given};
use problem::Altitude;
use receptions::Fields;
use record::Fix;
use rounds::Refusal;

// The bytes of a record.
const RECORD: usize = 176;

// The most receptions that a problem has.
const MOST: usize = 32;

// Document 01's answer number, and the record.
#[derive(Clone, Copy)]
pub struct Reply {
    pub number: u32,
    pub bytes: [u8; 176],
}

// Which inputs there are: bit 0 clock, bit 1 altitude, bit 2 reference.
pub fn given(present: u32) -> Given
    ensures { result ≡ reply.given present }
{
    Given {
        clock: sets::has(present, 0),
        altitude: sets::has(present, 1),
        reference: sets::has(present, 2),
    }
}

fn refused(number: u32, detail: u32, n: u32) -> Reply
    ensures { (result.number ≡ number) × (result.bytes ≡ shown.refusal number detail n) }
{
    let bytes = record::refusal(number, detail, n);
    Reply { number, bytes }
}

// The reply of an answer to a problem of n receptions.
fn answered(n: u32, altitude: Altitude, answer: Result<Fix, Refusal>) -> Reply
    ensures { (a : setting.Answer content.Fix) → answer ≡ as_answer a → result ≡ reply.answered n altitude a }
{
    match answer {
        Ok(fix) => {
            let bytes = record::fix(n, altitude, fix);
            Reply { number: 0, bytes }
        }
        Err(why) => refused(why.number(), why.detail(), n),
    }
}

// The reply to inputs that are turned away: n is shown for 1 to 9 only, which turn no more than 32 away.
fn turned_away(fault: Fault, n: usize) -> Reply
    requires { 32 < n → 9 < number_of fault }
    ensures { result ≡ reply.turned_away fault n }
{
    let number = fault.number();
    let detail = fault.detail();
    if n <= MOST {
        return refused(number, detail, n as u32);
    }
    refused(number, detail, 0)
}

// The reply to receptions by field, whole or torn, and the other inputs.
fn reply_to(
    f: Fields,
    whole: bool,
    n: usize,
    clock: &[u8],
    altitude: &[u8],
    reference: &[u8],
    present: u32,
) -> Reply
    requires { Filled f n }
    ensures { (at : ℕ → reception.Reception) → Holds f n at → result ≡ reply.reply (inputs_of whole n at
        (reply.given present) clock.now altitude.now reference.now) }
{
    let g = given(present);
    match inputs::check_inputs(f, whole, n, g, clock, altitude, reference) {
        Err(fault) => turned_away(fault, n),
        Ok(()) => {
            let p = inputs::problem_of(f, n, g, clock, altitude, reference);
            let shown = p.shown;
            let height = p.altitude;
            let reference_ps = p.reference_ps;
            let answer = rounds::solve_lent(
                &p.time,
                &p.site_mm,
                &p.site,
                &p.z,
                &p.noise_m2,
                &p.clock_m2,
                p.n,
                height,
                reference_ps,
            );
            answered(n as u32, shown, answer)
        }
    }
}

// The solve of receptions by field: `whole` says that they came whole, n how many came. Of over 32 none
// is looked at.
pub fn solve_fields(
    f: Fields,
    whole: bool,
    n: usize,
    clock: &[u8],
    altitude: &[u8],
    reference: &[u8],
    present: u32,
    out: &mut [u8],
) -> u32
    requires { Filled f n }
    ensures { (at : ℕ → reception.Reception) → Holds f n at → reply.Promise (inputs_of whole n at
        (reply.given present) clock.now altitude.now reference.now)
        out.old result out.new }
{
    if out.len() < RECORD {
        return refusals::Refusal::ShortOutput.number();
    }
    let r = reply_to(f, whole, n, clock, altitude, reference, present);
    let bytes = r.bytes;
    record::store(out, bytes);
    r.number
}

// How many of n receptions are unpacked: of over 32 none.
pub fn few(n: usize) -> usize
    ensures { result ≡ cond (leb n 32) n 0 }
{
    if n <= MOST { n } else { 0 }
}

// Solves one transmission's problem from its four inputs, and writes the record. `present` says which
// inputs there are: bit 0 clock, bit 1 altitude, bit 2 reference. Gives document 01's answer number.
pub fn solve(
    receptions: &[u8],
    clock: &[u8],
    altitude: &[u8],
    reference: &[u8],
    present: u32,
    out: &mut [u8],
) -> u32
    ensures { reply.Promise (reply.lent receptions.now clock.now altitude.now
        reference.now present) out.old result out.new }
{
    let n = receptions.len() / receptions::RECEPTION_BYTES;
    let whole = receptions.len() % receptions::RECEPTION_BYTES == 0;
    let f = receptions::of_bytes(receptions, few(n));
    solve_fields(f, whole, n, clock, altitude, reference, present, out)
}
