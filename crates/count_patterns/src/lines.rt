// The lines of the table, as text.
ghost use Rattle.std.specs.Prelude.{◌+◌, ◌^◌, ◌≤◌, ◌≡◌, ◌++◌, length};
ghost use Rattle.patterns.specs.Patterns.{pairs, leaving, table};
ghost use Rattle.text.specs.Text.{text_of, Room};
ghost use Rattle.count_patterns.specs.Lines as lines;

use text::Text;

// The text and the spaces before a number in a column of eight. None is above 2^15, which has five digits.
fn with_spaces(text: Text, x: u64) -> Text
    requires { Room text 7 }
    ensures { (text_of result ≡ text_of text ++ lines.spaces x) × (length result.bytes ≡ 512) × (result.n ≤ text.n + 7) }
{
    if x < 10 {
        return text::with(text, b"       ");
    }
    if x < 100 {
        return text::with(text, b"      ");
    }
    if x < 1_000 {
        return text::with(text, b"     ");
    }
    if x < 10_000 {
        return text::with(text, b"    ");
    }
    text::with(text, b"   ")
}

// The text and a number in a column of eight.
fn with_column(text: Text, x: u64) -> Text
    requires { Room text 27 }
    ensures { (text_of result ≡ text_of text ++ lines.column x) × (length result.bytes ≡ 512) × (result.n ≤ text.n + 27) }
{
    text::with_number(with_spaces(text, x), x)
}

// The counts of n receptions.
fn counted(n: u32) -> [u64; 7]
    requires { n ≤ 6 }
    ensures { result ≡ table n }
{
    let mut counts = [0u64; 7];
    // up to six it is always answered
    let _ = patterns::clash_patterns(n, &mut counts);
    counts
}

// How many of the patterns of n receptions leave at least four.
fn four(n: u32, counts: &[u64; 7]) -> u64
    requires { (n ≤ 6) × (counts.now ≡ table n) }
    ensures { result ≡ leaving n 4 + leaving n 5 + leaving n 6 }
{
    counts[4] + counts[5] + counts[6]
}

// The text and the share of those in `all` patterns of n receptions, as a percentage with one digit after the point, a
// half up.
fn with_share(text: Text, n: u32, all: u64, counts: &[u64; 7]) -> Text
    requires { Room text 51 × (n ≤ 6) × (all ≡ 2 ^ pairs n) × (counts.now ≡ table n) }
    ensures { (text_of result ≡ text_of text ++ lines.share n) × (length result.bytes ≡ 512) × (result.n ≤ text.n + 51) }
{
    let tenths = (four(n, counts) * 1_000 + all / 2) / all;
    let whole = with_column(text, tenths / 10);
    let point = text::with(whole, b".");
    let tenth = text::with_number(point, tenths % 10);
    text::with(tenth, b" %\n")
}

// The text and a column for each count.
fn with_columns(text: Text, counts: &[u64; 7]) -> Text
    requires { Room text 189 }
    ensures { (text_of result ≡ text_of text ++ lines.columns counts.now) × (length result.bytes ≡ 512)
        × (result.n ≤ text.n + 189) }
{
    let a = with_column(text, counts[0]);
    let b = with_column(a, counts[1]);
    let c = with_column(b, counts[2]);
    let d = with_column(c, counts[3]);
    let e = with_column(d, counts[4]);
    let f = with_column(e, counts[5]);
    with_column(f, counts[6])
}

// The line of n receptions, whose patterns are `all`: 2 to the number of pairs.
pub(crate) fn line_of(n: u32, all: u64) -> Text
    requires { (n ≤ 6) × (all ≡ 2 ^ pairs n) }
    ensures { (text_of result ≡ lines.line_of n) × (length result.bytes ≡ 512) × (result.n ≤ 512) }
{
    let counts = counted(n);
    let before = text::with(text::empty(), b"  ");
    let receptions = with_column(before, n as u64);
    let between = text::with(receptions, b"  ");
    let patterns = with_column(between, all);
    let left = with_columns(patterns, &counts);
    let after = text::with(left, b"  ");
    with_share(after, n, all, &counts)
}
