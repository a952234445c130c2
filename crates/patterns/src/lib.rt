// Document 02, item 14: of all patterns of failing pairs that 0 to 6 receptions can have, how many leave each number of
// survivors. The removals are the screen's own, run on every pattern.
#![tactic(auto)]

ghost use Rattle.std.specs.Prelude.{◌≡◌, ◌^◌, ◌≤◌, ◌<◌};
ghost use Rattle.sets.specs.Mask.{has};
ghost use Rattle.screen.specs.Held.{pairs_of};
ghost use Rattle.refusals.specs.Refusals.{answer_of};
ghost use Rattle.patterns.specs.Patterns.{pairs, clash, failing, survivors, table, answer, counts_after};

use refusals::Refusal;

// "a set of 0 to 6 receptions".
const MOST: u32 = 6;

// How many pairs n receptions have.
fn pairs(n: usize) -> usize
    requires { n ≤ 6 }
    ensures { result ≡ pairs n }
{
    (n * n - n) / 2
}

// Whether receptions a and b are a failing pair under the pattern: it has a bit for each pair, those of reception 1
// with the earlier ones first, then those of reception 2, and so on.
fn clash(pattern: u32, a: usize, b: usize) -> bool
    requires { (a < 6) × (b < 6) }
    ensures { result ≡ clash pattern a b }
{
    if b < a {
        return sets::has(pattern, pairs(a) + b);
    }
    if a < b {
        return sets::has(pattern, pairs(b) + a);
    }
    false
}

// Those of n receptions with which a fails.
fn row(pattern: u32, n: usize, a: usize) -> u32
    requires { (n ≤ 6) × (a < n) }
    ensures { has result ≡ failing n pattern a }
{
    let mut row = 0u32;
    for b in 0..n {
        if clash(pattern, a, b) {
            row += 1u32 << b;
        }
    }
    row
}

// The failing pairs of n receptions under the pattern: bit j of row i is set where the pair i, j fails.
fn failing(pattern: u32, n: usize) -> [u32; 32]
    requires { n ≤ 6 }
    ensures { pairs_of result ≡ failing n pattern }
{
    let mut rows = [0u32; 32];
    for a in 0..n {
        rows[a] = row(pattern, n, a);
    }
    rows
}

// How many of n receptions the screen keeps under the pattern.
fn survivors(pattern: u32, n: usize) -> u32
    requires { n ≤ 6 }
    ensures { result ≡ survivors n (failing n pattern) }
{
    let rows = failing(pattern, n);
    sets::count(screen::kept(&rows, n))
}

// The counts of n receptions: one pattern after another, from the one without a failing pair.
fn tallied(n: usize) -> [u64; 7]
    requires { n ≤ 6 }
    ensures { result ≡ table n }
{
    let mut counts = [0u64; 7];
    let end = 1u32 << pairs(n);
    for p in 0..end {
        let s = survivors(p, n) as usize;
        counts[s] += 1;
    }
    counts
}

// How many patterns of that many receptions leave 0, 1, .. 6 survivors, to `counts`. Over six is refused; then these
// stay.
pub fn clash_patterns(receptions: u32, counts: &mut [u64; 7]) -> Result<(), Refusal>
    ensures answer { answer_of result ≡ answer receptions }
    ensures counts { counts.new ≡ counts_after receptions counts.old }
{
    if MOST < receptions {
        return Err(Refusal::OverSix);
    }
    *counts = tallied(receptions as usize);
    Ok(())
}
