// Sets of up to 32 receptions as masks: bit i is set where reception i, from 0, is in the set.
#![tactic(auto)]

ghost use Rattle.std.specs.Prelude.{◌≡◌, ℕ, ◌^◌, ◌≤◌, ◌<◌};
ghost use Rattle.sets.specs.Sets.{first, joined, without, count, members_to};
ghost use Rattle.sets.specs.Mask.{has};

// Whether reception i is in the set.
pub fn has(mask: u32, i: usize) -> bool
    requires { i < 32 }
    ensures { result ≡ has mask i }
{
    (mask >> i) % 2 == 1
}

// The set and reception i.
pub fn joined(mask: u32, i: usize) -> u32
    requires { i < 32 }
    ensures { (has result ≡ joined (has mask) i) × ((n : ℕ) → i < n → mask < 2 ^ n → result < 2 ^ n) }
{
    mask | (1u32 << i)
}

// The set less reception i.
pub fn without(mask: u32, i: usize) -> u32
    requires { i < 32 }
    ensures { (has result ≡ without (has mask) i) × (result ≤ mask) }
{
    mask & !(1u32 << i)
}

// The receptions 0 to n - 1.
pub fn first(n: usize) -> u32
    requires { n ≤ 32 }
    ensures { (has result ≡ first n) × (result < 2 ^ n) }
{
    if n < 32 {
        return (1u32 << n) - 1;
    }
    0xffff_ffff
}

// How many receptions are in the set.
pub fn count(mask: u32) -> u32
    ensures { result ≡ count (has mask) 32 }
{
    u32::count_ones(mask)
}

// The receptions of the set below n, ascending, into index. Gives how many.
pub fn members(mask: u32, n: usize, index: &mut [usize; 32]) -> usize
    requires { n ≤ 32 }
    ensures { (result ≡ count (has mask) n) × (index.new ≡ members_to (has mask) index.old n) }
{
    let mut k = 0usize;
    for i in 0..n {
        if has(mask, i) {
            index[k] = i;
            k += 1;
        }
    }
    k
}
