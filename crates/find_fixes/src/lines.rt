// What is printed, as text.
ghost use Rattle.std.specs.Prelude.{◌≡◌, ◌+◌, ◌≤◌, T, ◌++◌, length};
ghost use Rattle.std.specs.Float.Ieee.{lt, neg};
ghost use Rattle.binary64.specs.Steps.{one};
ghost use Rattle.text.specs.Text.{text_of, Room};
ghost use Rattle.find_fixes.specs.Lines as lines;

use near::Held;
use text::Text;

// The text and whole millimetres, as metres.
fn with_mm(text: Text, n: u64) -> Text
    requires { Room text 81 }
    ensures { (text_of result ≡ text_of text ++ lines.thousandths n) × (length result.bytes ≡ 512)
        × (result.n ≤ text.n + 81) }
{
    let whole = text::with_number(text, n / 1000);
    let point = text::with(whole, b".");
    let tenth = text::with_number(point, n / 100 % 10);
    let hundredth = text::with_number(tenth, n / 10 % 10);
    text::with_number(hundredth, n % 10)
}

// The text and millimetres above -1, as metres: the whole ones, or that they are too many.
fn with_whole(text: Text, mm: f64) -> Text
    requires { Room text 81 × T (lt (neg one) mm) }
    ensures { (text_of result ≡ text_of text ++ lines.whole mm) × (length result.bytes ≡ 512)
        × (result.n ≤ text.n + 81) }
{
    if mm < 18446744073709551616.0 {
        return with_mm(text, std::num::truncating_f64_to_u64(mm));
    }
    text::with(text, b"over 10^16")
}

// The text and metres, to the nearest millimetre.
fn with_metres(text: Text, metres: f64) -> Text
    requires { Room text 81 }
    ensures { (text_of result ≡ text_of text ++ lines.metres metres) × (length result.bytes ≡ 512)
        × (result.n ≤ text.n + 81) }
{
    let mm = metres * 1000.0 + 0.5;
    if mm > -1.0 {
        return with_whole(text, mm);
    }
    text::with(text, b"over 10^16")
}

// The text and the line of a fix.
fn with_fix(text: Text, place: u64, distance: f64) -> Text
    requires { Room text 117 }
    ensures { (text_of result ≡ text_of text ++ lines.fix_line place distance) × (length result.bytes ≡ 512)
        × (result.n ≤ text.n + 117) }
{
    let word = text::with(text, b"place ");
    let number = text::with_number(word, place);
    let comma = text::with(number, b", ");
    let metres = with_metres(comma, distance);
    text::with(metres, b" m away\n")
}

// The line of a fix within the radius.
pub(crate) fn fix_line(place: u64, distance: f64) -> Text
    ensures { (text_of result ≡ lines.fix_line place distance) × (length result.bytes ≡ 512) × (result.n ≤ 512) }
{
    with_fix(text::empty(), place, distance)
}

// The line of the nearest fix.
pub(crate) fn nearest_line(held: Held) -> Text
    ensures { (text_of result ≡ lines.nearest_line held) × (length result.bytes ≡ 512) × (result.n ≤ 512) }
{
    let none = text::empty();
    if held.found {
        return with_fix(text::with(none, b"nearest: "), held.place, held.distance);
    }
    text::with(none, b"nearest: none, the file has no fix\n")
}
