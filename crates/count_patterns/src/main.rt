// Prints for planners, a line for each number of receptions from 0 to 6, how many patterns of failing pairs there are,
// how many of them leave 0, 1, .. 6 survivors of the screen, and the share that leaves at least four, which a position
// takes without an altitude. `./patterns` proves, builds and runs it. It takes no arguments; those, and an output that
// fails, are said on standard error.
#![tactic(auto)]

mod lines;

ghost use Rattle.std.specs.Prelude.{◌≡◌, ◌^◌, ◌≤◌, length};
ghost use Rattle.patterns.specs.Patterns.{pairs};

use lines::line_of;
use std::io;
use text::Text;

fn say(rt: &impl Print, words: &[u8]) -> io::Result<()> {
    rt.write_all(words)
}

// Prints a line.
fn print(rt: &impl Print, line: Text) -> io::Result<()>
    requires { (length line.bytes ≡ 512) × (line.n ≤ 512) }
{
    let bytes = line.bytes;
    let n = line.n;
    say(rt, &bytes[..n])
}

// The line of n receptions, whose patterns are `all`: 2 to the number of pairs.
fn line(rt: &impl Print, n: u32, all: u64) -> io::Result<()>
    requires { (n ≤ 6) × (all ≡ 2 ^ pairs n) }
{
    print(rt, line_of(n, all))
}

// The table, up to the first line that cannot be written. (Its lines are written out: the check computes 2 to the pairs
// of each number, where a loop would compute it anew at run time and prove it.)
fn print_table(rt: &impl Print) -> io::Result<()> {
    say(
        rt,
        b"Of all patterns of failing pairs, how many leave 0 to 6 survivors of the screen:\n\n",
    )?;
    say(
        rt,
        b"receptions  patterns       0       1       2       3       4       5       6  four or more\n",
    )?;
    line(rt, 0, 1)?;
    line(rt, 1, 1)?;
    line(rt, 2, 2)?;
    line(rt, 3, 8)?;
    line(rt, 4, 64)?;
    line(rt, 5, 1_024)?;
    line(rt, 6, 32_768)
}

fn main(rt: HostRuntime) {
    if host::arg_count(&rt) > 1 {
        host::say(&rt, "usage: count_patterns, without arguments\n");
    } else {
        host::written(&rt, print_table(&rt), b"count_patterns: standard output");
    }
}
