// Why a receiver is missing from a fix: the state of each reception of a solved problem (document 02, item 9).
#![tactic(auto)]

ghost use Rattle.std.specs.Prelude.{◌≡◌, ℕ, ◌+◌, ◌*◌, ◌≤◌, ◌<◌, length};
ghost use Rattle.receptions.specs.declared.Reception as reception;
ghost use Rattle.receptions.specs.Held.{Holds, Filled};
ghost use Rattle.inputs.specs.Inputs.{inputs_of};
ghost use Rattle.record.specs.declared.content.Fix as content;
ghost use Rattle.record.specs.Record.{written};
ghost use Rattle.rounds.specs.Setting as setting;
ghost use Rattle.rounds.specs.Solve.{solve_problem};
ghost use Rattle.rounds.specs.Held.{as_answer};
ghost use Rattle.entry.specs.Reply as reply;
ghost use Rattle.why.specs.States.{state_by, state_of, number_of, turn_in, clashes_in, residual_in};
ghost use Rattle.why.specs.Held.{state_in};
ghost use Rattle.why.specs.States.{rows_at, states_to};
ghost use Rattle.why.specs.Why as why;

use problem::Problem;
use receptions::Fields;
use record::Fix;
use rounds::Refusal;

// The bytes of a state, and of the 32 that a buffer has room for.
const STATE: usize = 20;

const STATES: usize = 640;

// What a reception is to a fix: used, with its normalised residual; removed by the screen, with the turn of its
// removal, from 1, and its clash count in that turn; or left out, with a residual above 5.
#[derive(Clone, Copy)]
pub enum State {
    Used(f64),
    Removed { turn: u32, clashes: u32 },
    LeftOut(f64),
}

// Document 01's answer number and detail.
#[derive(Clone, Copy)]
pub struct Verdict {
    pub number: u32,
    pub detail: u32,
}

fn state_by(used: bool, turn: u32, clashes: u32, z: f64) -> State
    ensures { result ≡ state_by used turn clashes z }
{
    if used {
        return State::Used(z);
    }
    if turn > 0 {
        return State::Removed { turn, clashes };
    }
    State::LeftOut(z)
}

fn number_of(s: State) -> u32
    ensures { result ≡ number_of s }
{
    match s {
        State::Used(z) => 1,
        State::Removed { turn, clashes } => 2,
        State::LeftOut(z) => 3,
    }
}

fn turn_in(s: State) -> u32
    ensures { result ≡ turn_in s }
{
    match s {
        State::Used(z) => 0,
        State::Removed { turn, clashes } => turn,
        State::LeftOut(z) => 0,
    }
}

fn clashes_in(s: State) -> u32
    ensures { result ≡ clashes_in s }
{
    match s {
        State::Used(z) => 0,
        State::Removed { turn, clashes } => clashes,
        State::LeftOut(z) => 0,
    }
}

// 0, whose bytes are zeros, where it has none.
fn residual_in(s: State) -> f64
    ensures { result ≡ residual_in s }
{
    match s {
        State::Used(z) => z,
        State::Removed { turn, clashes } => 0.0,
        State::LeftOut(z) => z,
    }
}

// The 20 bytes of a state, from byte k on.
fn put_state(out: &mut [u8], k: usize, s: State)
    requires { k + 20 ≤ length out.old }
    ensures { out.new ≡ written out.old (rows_at k s) }
{
    words::put_u32(out, k, number_of(s));
    words::put_u32(out, k + 4, turn_in(s));
    words::put_u32(out, k + 8, clashes_in(s));
    words::put_f64(out, k + 12, residual_in(s));
}

// The states of n receptions, one after the other, by the mask of the used, the turns and clash counts of the removed
// and the normalised residuals.
fn put_states(
    mask: u32,
    turns: &[u32; 32],
    clashes: &[u32; 32],
    z: &[f64; 32],
    n: usize,
    out: &mut [u8],
)
    requires { (n ≤ 32) × (640 ≤ length out.old) }
    ensures { out.new
        ≡ states_to out.old (state_in mask turns.now clashes.now z.now) n }
{
    for i in 0..n {
        let s = state_by(sets::has(mask, i), turns[i], clashes[i], z[i]);
        put_state(out, STATE * i, s);
    }
}

// The states of the receptions of a problem in its fix. The removals are those that the solve made; their turns and
// clash counts are written down here alone.
fn tell(p: Problem, fix: Fix, out: &mut [u8])
    requires { (p.n ≤ 32) × (640 ≤ length out.old) }
    ensures { out.new ≡ states_to out.old (state_of p fix) p.n }
{
    let n = p.n;
    let time = p.time;
    let site_mm = p.site_mm;
    let site = p.site;
    let z = p.z;
    let noise = p.noise_m2;
    let clock = p.clock_m2;
    let ecef = fix.ecef;
    let params = [ecef[0], ecef[1], ecef[2], fix.t];
    let residuals = rounds::residuals(&site, &z, &noise, &clock, n, params);
    let rows = screen::failing(&time, &site_mm, n);
    let removed = screen::removals(&rows, n);
    let turns = removed.turns;
    let clashes = removed.clashes;
    put_states(fix.mask, &turns, &clashes, &residuals, n, out);
}

// The verdict on a problem by its answer, and the states where that is a fix.
fn explained(p: Problem, answer: Result<Fix, Refusal>, out: &mut [u8]) -> Verdict
    requires { (p.n ≤ 32) × (640 ≤ length out.old) }
    ensures verdict { (a : setting.Answer content.Fix) → answer ≡ as_answer a → result ≡ why.verdict_of a }
    ensures states { (a : setting.Answer content.Fix) → answer ≡ as_answer a
        → out.new ≡ why.states_of p a out.old }
{
    match answer {
        Ok(fix) => {
            let dof = fix.dof;
            tell(p, fix, out);
            Verdict {
                number: 0,
                detail: dof,
            }
        }
        Err(why) => Verdict {
            number: why.number(),
            detail: why.detail(),
        },
    }
}

// The same of receptions by field, whole or torn, and the other inputs: their one solve is that of `solve`.
fn asked(
    f: Fields,
    whole: bool,
    n: usize,
    clock: &[u8],
    altitude: &[u8],
    reference: &[u8],
    present: u32,
    out: &mut [u8],
) -> Verdict
    requires { Filled f n × (640 ≤ length out.old) }
    ensures verdict { (at : ℕ → reception.Reception) → Holds f n at → result ≡ why.verdict (inputs_of whole n at
        (reply.given present) clock.now altitude.now reference.now) }
    ensures states { (at : ℕ → reception.Reception) → Holds f n at → out.new
        ≡ why.states (inputs_of whole
        n at (reply.given present) clock.now altitude.now reference.now)
        out.old }
{
    let g = entry::given(present);
    match inputs::check_inputs(f, whole, n, g, clock, altitude, reference) {
        Err(fault) => Verdict {
            number: fault.number(),
            detail: fault.detail(),
        },
        Ok(()) => {
            let p = inputs::problem_of(f, n, g, clock, altitude, reference);
            let answer = rounds::solve_problem(p);
            explained(p, answer, out)
        }
    }
}

// Solves one transmission's problem from its four inputs, as `entry::solve` does, and writes the states of its
// receptions in input order. Gives document 01's answer number, and its detail in `detail`.
pub fn why(
    receptions: &[u8],
    clock: &[u8],
    altitude: &[u8],
    reference: &[u8],
    present: u32,
    out: &mut [u8],
    detail: &mut u32,
) -> u32
    ensures answer { result ≡ why.answer (reply.lent
        receptions.now clock.now altitude.now reference.now present)
        out.old }
    ensures states { out.new ≡ why.output (reply.lent
        receptions.now clock.now altitude.now reference.now present)
        out.old }
    ensures detail { detail.new ≡ why.detail_after (reply.lent
        receptions.now clock.now altitude.now reference.now present)
        out.old detail.old }
{
    if out.len() < STATES {
        return refusals::Refusal::ShortOutput.number();
    }
    let n = receptions.len() / receptions::RECEPTION_BYTES;
    let whole = receptions.len() % receptions::RECEPTION_BYTES == 0;
    let f = receptions::of_bytes(receptions, entry::few(n));
    let verdict = asked(f, whole, n, clock, altitude, reference, present, out);
    *detail = verdict.detail;
    verdict.number
}
