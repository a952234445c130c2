// A line for each record, with a head.
ghost use Rattle.std.specs.Prelude.{◌+◌, ◌*◌, ◌≤◌};

use refusals::Refusal;
use std::fmt;

// The least word of eight bytes whose sign bit is set.
const SIGN: u64 = 0x8000_0000_0000_0000;

// The numbers of a binary64: how many significands there are of one power, how many powers, and which of them is 2^0.
const SIGNIFICANDS: u64 = 0x10_0000_0000_0000;

const POWERS: u64 = 2048;

const UNITS: u64 = 1075;

// A finite binary64 by its bits, which is written as C's hexadecimal constants are.
#[derive(Clone, Copy)]
struct Hex(u64);

impl fmt::Display for Hex {
    fn fmt<W: fmt::Write>(&self, f: &mut fmt::Formatter<W>) -> fmt::Result {
        let Hex(bits) = *self;
        let sign = if bits >= SIGN { "-" } else { "" };
        let power = bits / SIGNIFICANDS % POWERS;
        let fraction = bits % SIGNIFICANDS;
        let (significand, exponent) = if power == 0 {
            (fraction, 1)
        } else {
            (fraction + SIGNIFICANDS, power)
        };
        if exponent < UNITS {
            let below = UNITS - exponent;
            write!(f, "{sign}0x{significand:x}p-{below}")
        } else {
            let above = exponent - UNITS;
            write!(f, "{sign}0x{significand:x}p+{above}")
        }
    }
}

// The n floats from byte k on, each after a comma.
fn print_floats(rt: &impl Print, bytes: &[u8; 176], k: usize, n: usize)
    requires { k + 8 * n ≤ 176 }
{
    for i in 0..n {
        let float = Hex(words::u64_at(bytes, k + 8 * i));
        let _ = print!(rt; ",{float}");
    }
}

pub(crate) fn name_of(answer: u32) -> &'static str {
    match answer {
        0 => "FIX",
        1 => "TOO_FEW",
        2 => "NO_CONVERGENCE",
        3 => "OUT_OF_RANGE",
        4 => "NO_FIXED_POINT",
        5 => "INCONSISTENT",
        6 => "SINGULAR",
        7 => "UNCOVERED",
        8 => "AMBIGUOUS",
        9 => "UNCERTAIN",
        10 => "TOO_MANY",
        11 => "DISORDER",
        12 => "BAD_FIELD",
        13 => "CLOCK_SIZE",
        15 => "TORN_INPUT",
        _ => "MALFORMED_RECORD",
    }
}

// What a fix has after n. The altitude is kind and metres, none for kind 0.
fn print_fix(rt: &impl Print, bytes: &[u8; 176]) {
    let used = words::u32_at(bytes, 12);
    let time = words::i64_at(bytes, 72);
    let version = words::u16_at(bytes, 160);
    let kind = bytes[162];
    let _ = print!(rt; ",{used}");
    print_floats(rt, bytes, 48, 3);
    let _ = print!(rt; ",{time}");
    print_floats(rt, bytes, 16, 4);
    print_floats(rt, bytes, 152, 1);
    let _ = print!(rt; ",{version},{kind}");
    if kind == 0 {
        let _ = print!(rt; ",");
    } else {
        print_floats(rt, bytes, 168, 1);
    }
    print_floats(rt, bytes, 80, 9);
}

// A record's line. A malformed one has detail and n 0.
pub(crate) fn print_row(rt: &impl Print, bytes: &[u8; 176], place: u64, answer: u32) {
    let name = name_of(answer);
    let (detail, n) = if answer == Refusal::MalformedRecord.number() {
        (0, 0)
    } else {
        (words::u32_at(bytes, 4), words::u32_at(bytes, 8))
    };
    let _ = print!(rt; "{place},{answer},{name},{detail},{n}");
    if answer == 0 {
        print_fix(rt, bytes);
    } else {
        let _ = print!(rt; ",,,,,,,,,,,,,,,,,,,,,,");
    }
    let _ = println!(rt; "");
}

pub(crate) fn print_columns(rt: &impl Print) {
    let _ = print!(rt;
        "place,answer,name,detail,n,used,latitude_deg,longitude_deg,height_m,transmit_ps,"
    );
    let _ = print!(rt; "x_m,y_m,z_m,t_m,chi2,version,altitude_kind,altitude_m,");
    let _ = println!(rt; "c00,c01,c02,c10,c11,c12,c20,c21,c22");
}
