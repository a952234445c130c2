// Text that a program writes, put together piece by piece, so that what is written is the result of a function.
#![tactic(auto)]

ghost use Rattle.std.specs.Prelude.{◌+◌, ◌≤◌, ◌≡◌, [], ◌++◌, length};
ghost use Rattle.text.specs.Text.{text_of, Room, decimal};

// Room for the longest text.
pub const ROOM: usize = 512;

// The first n of the bytes.
#[derive(Clone, Copy)]
pub struct Text {
    pub bytes: [u8; ROOM],
    pub n: usize,
}

pub fn empty() -> Text
    ensures { (text_of result ≡ []) × (length result.bytes ≡ 512) × (result.n ≡ 0) }
{
    Text {
        bytes: [0u8; ROOM],
        n: 0,
    }
}

// The text and a piece more.
pub fn with(text: Text, piece: &[u8]) -> Text
    requires { Room text (length piece.now) }
    ensures { (text_of result ≡ text_of text ++ piece.now) × (length result.bytes ≡ 512)
        × (result.n ≡ text.n + length piece.now) }
{
    let mut bytes = text.bytes;
    let n = text.n + piece.len();
    bytes[text.n..n].copy_from_slice(piece);
    Text { bytes, n }
}

// The text and a number more, in decimal digits.
pub fn with_number(text: Text, number: u64) -> Text
    requires { Room text 20 }
    ensures { (text_of result ≡ text_of text ++ decimal number) × (length result.bytes ≡ 512)
        × (result.n ≤ text.n + 20) }
{
    let mut digits = [0u8; 20];
    let n = io::decimal(number, &mut digits);
    with(text, &digits[..n])
}
