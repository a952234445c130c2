// The feasibility screen: `screen` of solve.rs.
#![tactic(auto)]

ghost use Rattle.std.specs.Prelude.{◌≡◌, true, cond, ℕ, ◌+◌, ◌-◌, ◌*◌, ◌/◌, ◌^◌, ◌≤◌, ◌<◌, leb, pos, get_or, length};
ghost use Rattle.binary64.specs.Root.{floor_root};
ghost use Rattle.sets.specs.Sets.{first};
ghost use Rattle.sets.specs.Mask.{has};
ghost use Rattle.sets.specs.Held.{option_of};
ghost use Rattle.screen.specs.Pair as pair;
ghost use Rattle.screen.specs.Screen as removal;
ghost use Rattle.screen.specs.Held.{pairs_of, numbers_of, held_by, Told};
ghost use Rattle.screen.specs.Meaning.{Clear};
ghost use Rattle.screen.specs.State.{most_clashing, lessened, start};

// The allowance beyond the baseline, millimetres: of solve.rs.
const SCREEN_MARGIN_MM: u64 = 1_000_000;

// The speed of light: it goes LIGHT_MM millimetres in LIGHT_PS picoseconds.
const LIGHT_MM: u64 = 299_792_458;

const LIGHT_PS: u64 = 1_000_000_000;

// What light goes in `gap` picoseconds, rounded up to a millimetre.
fn light_in(gap: u64) -> u64
    ensures { result ≡ (gap * 299_792_458 + 999_999_999) / 10 ^ 9 }
{
    // up to 34 ms the product fits a word
    if gap < 0x8_0000_0000 {
        return (gap * LIGHT_MM + LIGHT_PS - 1) / LIGHT_PS;
    }
    // whole 10^9 ps apart from the rest, so that each product does
    let rest = gap % LIGHT_PS * LIGHT_MM;
    gap / LIGHT_PS * LIGHT_MM + (rest + LIGHT_PS - 1) / LIGHT_PS
}

// The least baseline with which a pair passes whose times are `gap` apart: what light goes in that
// time, rounded up, less the margin.
fn least_baseline(gap: u64) -> u64
    ensures { ((b : ℕ) → pair.passes gap b ≡ leb result b) × (result < 2 ^ 63) }
{
    let light = light_in(gap);
    if light < SCREEN_MARGIN_MM {
        return 0;
    }
    light - SCREEN_MARGIN_MM
}

// d * d, which two words hold.
fn squared(d: u64) -> u128
    ensures { result ≡ d * d }
{
    d as u128 * d as u128
}

// Whether two sites x, y and z apart along the axes have a baseline of `least` or more. No root is
// taken: the floored root of a number is at least `least` where the number is at least the square of
// `least`, and nowhere else.
fn reaches(x: u64, y: u64, z: u64, least: u64) -> bool
    requires { least < 2 ^ 63 }
    ensures { result ≡ leb least (floor_root (x * x + y * y + z * z)) }
{
    // up to 2,147 km the squares fit a word
    if (x | y | z | least) < 0x8000_0000 {
        return least * least <= x * x + y * y + z * z;
    }
    // one axis alone may reach that far; where none does, the squares fit two words
    if least <= x {
        return true;
    }
    if least <= y {
        return true;
    }
    if least <= z {
        return true;
    }
    squared(least) <= squared(x) + squared(y) + squared(z)
}

// How far two of the values are apart.
fn apart(values: &[i64], a: usize, b: usize) -> u64
    requires { (a < length values.now) × (b < length values.now) }
    ensures { result ≡ pair.gap (get_or values.now a (pos 0)) (get_or values.now b (pos 0)) }
{
    values[a].abs_diff(values[b])
}

// Whether receptions i and j are a failing pair.
fn clash(times: &[i64; 32], sites: &[i64; 96], i: usize, j: usize) -> bool
    requires { (i < 32) × (j < 32) }
    ensures { result ≡ pair.clash times.now sites.now i j }
{
    let least = least_baseline(apart(times, i, j));
    let a = 3 * i;
    let b = 3 * j;
    let x = apart(sites, a, b);
    let y = apart(sites, a + 1, b + 1);
    let z = apart(sites, a + 2, b + 2);
    !reaches(x, y, z, least)
}

// Puts the failing pairs of reception i with those before it to `rows`, which has the pairs of these.
fn mark(times: &[i64; 32], sites: &[i64; 96], i: usize, rows: &mut [u32; 32])
    requires i_bound { (i < 32) × (length rows.old ≡ 32) }
    requires rows_value { pairs_of rows.old ≡ pair.fails times.now sites.now i }
    ensures rows_len { length rows.new ≡ 32 }
    ensures rows_after { pairs_of rows.new
        ≡ pair.fails times.now sites.now (i + 1) }
{
    for j in 0..i {
        if clash(times, sites, i, j) {
            rows[i] = sets::joined(rows[i], j);
            rows[j] = sets::joined(rows[j], i);
        }
    }
}

// The failing pairs of the first n receptions: bit j of row i is set where the pair i, j fails.
pub fn failing(times: &[i64; 32], sites: &[i64; 96], n: usize) -> [u32; 32]
    requires { n ≤ 32 }
    ensures { pairs_of result ≡ pair.fails times.now sites.now n }
{
    let mut rows = [0u32; 32];
    for i in 0..n {
        mark(times, sites, i, &mut rows);
    }
    rows
}

// The state of the removals: the receptions still in, and for each of them the number of failing
// pairs that it has with others still in. A removed one holds 0.
#[derive(Clone, Copy)]
struct State {
    alive: u32,
    counts: [u32; 32],
}

// The state with all n in. Pairs are counted here and nowhere else.
fn start(rows: &[u32; 32], n: usize) -> State
    requires { n ≤ 32 }
    ensures { (held_by result ≡ start n (pairs_of rows.now)) × (result.alive < 2 ^ n) }
{
    let alive = sets::first(n);
    let mut counts = [0u32; 32];
    for i in 0..n {
        counts[i] = sets::count(alive & rows[i]);
    }
    State { alive, counts }
}

// Which goes: the one in most failing pairs by these numbers, the lowest index on ties.
fn most_clashing(counts: &[u32; 32], n: usize) -> Option<usize>
    requires { n ≤ 32 }
    ensures { result ≡ option_of (most_clashing n (numbers_of counts.now)) }
{
    let mut worst = None;
    let mut most = 0u32;
    for i in 0..n {
        let count = counts[i];
        if most < count {
            most = count;
            worst = Some(i);
        }
    }
    worst
}

// One less than `count` where the row has w. 0 stays 0.
fn less(count: u32, row: u32, w: usize) -> u32
    requires { w < 32 }
    ensures { result ≡ count - cond (has row w) 1 0 }
{
    if count == 0 {
        return 0;
    }
    count - (row >> w) % 2
}

// The numbers once w is removed: it holds 0, and one is taken off each that fails with it. One that
// was removed before holds 0 already, and keeps it.
fn lessen(rows: &[u32; 32], n: usize, w: usize, counts: &mut [u32; 32])
    requires { (n ≤ 32) × (w < n) × (length counts.old ≡ 32) }
    ensures counts_len { length counts.new ≡ 32 }
    ensures counts_after { numbers_of counts.new
        ≡ lessened (pairs_of rows.now) (first n) w (numbers_of counts.old) }
{
    counts[w] = 0;
    for i in 0..n {
        counts[i] = less(counts[i], rows[i], w);
    }
}

// What the removals do to n receptions: which are kept, and of each other one the turn of its
// removal, from 1, and its clash count in that turn. Both are 0 for a kept one.
#[derive(Clone, Copy)]
pub struct Outcome {
    pub kept: u32,
    pub turns: [u32; 32],
    pub clashes: [u32; 32],
}

// The removals, one after another, until no pair of `rows` is left.
pub fn removals(rows: &[u32; 32], n: usize) -> Outcome
    requires { n ≤ 32 }
    ensures { Told n (pairs_of rows.now) result }
{
    let mut state = start(rows, n);
    let mut turns = [0u32; 32];
    let mut clashes = [0u32; 32];
    let mut turn = 0u32;
    while let Some(worst) = most_clashing(&state.counts, n) {
        turn += 1;
        turns[worst] = turn;
        clashes[worst] = state.counts[worst];
        state.alive = sets::without(state.alive, worst);
        lessen(rows, n, worst, &mut state.counts);
    }
    Outcome {
        kept: state.alive,
        turns,
        clashes,
    }
}

// Whether no two of n receptions fail: no row has any.
fn clear(rows: &[u32; 32], n: usize) -> bool
    requires { n ≤ 32 }
    ensures { result ≡ true → Clear n (pairs_of rows.now) (first n) }
{
    rows[..n].iter().all(|&row| row == 0)
}

// Those of n receptions that are left once no pair of `rows` is. Nothing is counted where none is.
pub fn kept(rows: &[u32; 32], n: usize) -> u32
    requires { n ≤ 32 }
    ensures { (has result ≡ removal.kept n (pairs_of rows.now)) × (result < 2 ^ n) }
{
    if clear(rows, n) {
        return sets::first(n);
    }
    removals(rows, n).kept
}

// The receptions that the screen keeps, of the n with these times (picoseconds) and sites
// (millimetres, three coordinates each).
pub fn screen(times: &[i64; 32], sites: &[i64; 96], n: usize) -> u32
    requires { n ≤ 32 }
    ensures { (has result ≡ removal.kept n (pair.fails times.now sites.now n)) × (result < 2 ^ n) }
{
    let rows = failing(times, sites, n);
    kept(&rows, n)
}
