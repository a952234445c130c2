// What the screen does to small sets of receptions, for callers in C who plan networks: document 02, item 14.
ghost use Rattle.std.specs.Prelude.{◌≡◌};
ghost use Rattle.patterns.specs.Patterns as patterns;

// How many patterns of failing pairs of that many receptions leave 0, 1, .. 6 survivors: 24 over six; then `counts`
// stays.
pub fn mlat_clash_patterns(receptions: u32, counts: &mut [u64; 7]) -> u32
    ensures answer { result ≡ patterns.answer receptions }
    ensures counts { counts.new ≡ patterns.counts_after receptions counts.old }
{
    refusals::answer(patterns::clash_patterns(receptions, counts))
}
