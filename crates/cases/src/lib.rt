// Cases on standard input, one after the other: reading them, counting those that differ, and printing how many do.
// What the programs share that compare recorded cases.
#![tactic(auto)]

ghost use Rattle.std.specs.Prelude.{ℕ, ◌+◌, ◌<◌, ◌≤◌, cond, ◌≡◌, length, drop};
ghost use Rattle.io.specs.Counts.{IsPrefixLen};
ghost use Rattle.cases.specs.Tallies.{IsTallyOf, IsFalsified};

use std::io;
use std::io::Read;

// A proved loop has to end, and nothing says that an input does: no file has this many cases.
pub const MOST: u64 = 1000000;

// Whether a case is as its record has it, and whether it is as a falsified record has it.
#[derive(Clone, Copy)]
pub struct Compared {
    pub same: bool,
    pub same_falsified: bool,
}

// How many cases were compared, with their records and with falsified ones, and how many differ from each.
#[derive(Clone, Copy)]
pub struct Tally {
    pub compared: u64,
    pub differ: u64,
    pub differ_falsified: u64,
}

// One more, where a case differs.
fn counted(differ: u64, agrees: bool) -> u64
    requires { differ < 1000000 }
    ensures { result ≡ cond agrees differ (differ + 1) }
{
    if agrees {
        return differ;
    }
    differ + 1
}

impl Tally {
    pub fn none() -> Tally
        ensures { (result.compared ≡ 0) × (result.differ ≡ 0) × (result.differ_falsified ≡ 0) }
    {
        Tally {
            compared: 0,
            differ: 0,
            differ_falsified: 0,
        }
    }

    // One case more. The second `ensures` follows from the first, and is there for the next call.
    pub fn with(self, found: Compared) -> Tally
        requires compared_bound { self.compared < 1000000 }
        requires differ_le_compared { (self.differ ≤ self.compared) × (self.differ_falsified ≤ self.compared) }
        ensures compared_value { (result.compared ≡ self.compared + 1)
            × (result.differ ≡ cond found.same self.differ (self.differ + 1))
            × (result.differ_falsified ≡ cond found.same_falsified self.differ_falsified
            (self.differ_falsified + 1)) }
        ensures differ_le_compared_2 { (result.differ ≤ result.compared) × (result.differ_falsified ≤ result.compared) }
    {
        Tally {
            compared: self.compared + 1,
            differ: counted(self.differ, found.same),
            differ_falsified: counted(self.differ_falsified, found.same_falsified),
        }
    }
}

// Reads the next n bytes to the start of `bytes`, and says how many came: none where `bytes` has no room for n. Of what
// comes, and how much, nothing is promised, since `host::read_full` says nothing of it.
pub fn read(input: &mut impl Read, bytes: &mut [u8], n: usize) -> usize
    ensures prefix_len { IsPrefixLen result bytes.new }
    ensures upper_bound { (result ≤ n) × (drop n bytes.new ≡ drop n bytes.old) }
    ensures value { length bytes.old < n → (result ≡ 0) × (bytes.new ≡ bytes.old) }
{
    let room = bytes.len();
    if n > room {
        return 0;
    }
    host::read_full(input, &mut bytes[..n])
}

// Falsifies the answer of a case: changes byte `place` of what is to be left, or, past its end, gives another number.
pub fn falsified(number: u8, after: &mut [u8], place: usize) -> u8
    ensures { IsFalsified number result place after.old after.new }
{
    if place < after.len() {
        after[place] ^= 1;
        return number;
    }
    number ^ 1
}

// Whether an answer is alike the recorded one, a number and what is left, and alike the falsified one.
pub fn twice<F: Fn(u8, &[u8]) -> bool>(
    number: u8,
    after: &mut [u8],
    place: usize,
    alike: F,
) -> Compared
    requires { F.IsAlwaysCallable alike }
    ensures same { (bytes : _) × (bytes.now ≡ after.old) × F.post alike number bytes result.same }
    ensures falsified { (other : ℕ) × (bytes : _) × (bytes.now ≡ after.new)
        × IsFalsified number other place after.old after.new × F.post alike other bytes result.same_falsified }
{
    let same = alike(number, after);
    let other = falsified(number, after, place);
    let same_falsified = alike(other, after);
    Compared {
        same,
        same_falsified,
    }
}

// Compares case after case: `next` reads case k and compares it, or says that there is none.
pub fn replay<F: FnMut(u64) -> Option<Compared>>(mut next: F) -> Tally
    requires { F.IsAlwaysCallable next }
    ensures { IsTallyOf F.step next result }
{
    let mut tally = Tally::none();
    for k in 0..MOST {
        let Some(found) = next(k) else {
            return tally;
        };
        tally = tally.with(found);
    }
    tally
}

// Prints how many were compared and how many differ; and likewise of the falsified records.
pub fn print(rt: &impl Print, tally: Tally) -> io::Result<()> {
    let compared = tally.compared;
    let differ = tally.differ;
    let falsified = tally.differ_falsified;
    println!(rt; "{compared} compared, {differ} differ; {compared} falsified, {falsified} differ")
}
