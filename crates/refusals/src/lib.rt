// Why a call gives nothing: one list for the whole repository, the number and the name of each refusal. Document 01,
// 'When there is no fix', has 1 to 15, and document 02 16 to 24; 0 is a fix or a call that was answered.
#![tactic(auto)]

ghost use Rattle.std.specs.Prelude.{◌≡◌};
ghost use Rattle.refusals.specs.Refusals as refusals;

use std::fmt;

#[derive(Clone, Copy, Debug, PartialEq, Eq)]
pub enum Refusal {
    // too few: fewer included than 4 (3 with altitude)
    TooFew,
    // no convergence: no start converges
    NoConvergence,
    // out of range: some converge, none plausible; or the transmit time leaves i64
    OutOfRange,
    // no fixed point: 2s + 2 rounds all made a change
    NoFixedPoint,
    // inconsistent: chi2 above `published_chi2_limit`
    Inconsistent,
    // singular: a Cholesky fails, or a kept reception's normalised residual is not a number
    Singular,
    // uncovered: no clock covariance
    Uncovered,
    // ambiguous: `best_fit`'s rule
    Ambiguous,
    // uncertain: a variance above 1,500², or the 3 × 3 Cholesky fails
    Uncertain,
    // too many: over 32 receptions
    TooMany,
    // disorder: identity not above the one before
    Disorder,
    // bad field: outside the domain, or a non-zero filler
    BadField,
    // clock size: `clock.bin` present, not 8n² bytes
    ClockSize,
    // short output: less is lent than is written
    ShortOutput,
    // torn input: an input that is not whole entries
    TornInput,
    // torn file: a file that is not whole records, or a record of another length
    TornFile,
    // no such place: the file ends before that place
    NoSuchPlace,
    // malformed record: a record that the rules don't allow
    MalformedRecord,
    // beyond the wire: no fix, or a position outside the wire's limits
    BeyondTheWire,
    // unequal mirror: mirrored covariance entries differ
    UnequalMirror,
    // wrong size: size or width over 32, or a length that does not match
    WrongSize,
    // bad query: radius or point not finite or too large, radius negative
    BadQuery,
    // beyond the items: a place or a height outside ASTERIX's items, or a length other than ten
    BeyondTheItems,
    // over six: more than six receptions
    OverSix,
}

impl Refusal {
    // Its number in the documents.
    pub fn number(self) -> u32
        ensures { result ≡ refusals.number_of self }
    {
        match self {
            Refusal::TooFew => 1,
            Refusal::NoConvergence => 2,
            Refusal::OutOfRange => 3,
            Refusal::NoFixedPoint => 4,
            Refusal::Inconsistent => 5,
            Refusal::Singular => 6,
            Refusal::Uncovered => 7,
            Refusal::Ambiguous => 8,
            Refusal::Uncertain => 9,
            Refusal::TooMany => 10,
            Refusal::Disorder => 11,
            Refusal::BadField => 12,
            Refusal::ClockSize => 13,
            Refusal::ShortOutput => 14,
            Refusal::TornInput => 15,
            Refusal::TornFile => 16,
            Refusal::NoSuchPlace => 17,
            Refusal::MalformedRecord => 18,
            Refusal::BeyondTheWire => 19,
            Refusal::UnequalMirror => 20,
            Refusal::WrongSize => 21,
            Refusal::BadQuery => 22,
            Refusal::BeyondTheItems => 23,
            Refusal::OverSix => 24,
        }
    }
}

// The name that lists of records show.
impl fmt::Display for Refusal {
    fn fmt<W: fmt::Write>(&self, f: &mut fmt::Formatter<W>) -> fmt::Result {
        f.write_str(match self {
            Refusal::TooFew => "TOO_FEW",
            Refusal::NoConvergence => "NO_CONVERGENCE",
            Refusal::OutOfRange => "OUT_OF_RANGE",
            Refusal::NoFixedPoint => "NO_FIXED_POINT",
            Refusal::Inconsistent => "INCONSISTENT",
            Refusal::Singular => "SINGULAR",
            Refusal::Uncovered => "UNCOVERED",
            Refusal::Ambiguous => "AMBIGUOUS",
            Refusal::Uncertain => "UNCERTAIN",
            Refusal::TooMany => "TOO_MANY",
            Refusal::Disorder => "DISORDER",
            Refusal::BadField => "BAD_FIELD",
            Refusal::ClockSize => "CLOCK_SIZE",
            Refusal::ShortOutput => "SHORT_OUTPUT",
            Refusal::TornInput => "TORN_INPUT",
            Refusal::TornFile => "TORN_FILE",
            Refusal::NoSuchPlace => "NO_SUCH_PLACE",
            Refusal::MalformedRecord => "MALFORMED_RECORD",
            Refusal::BeyondTheWire => "BEYOND_THE_WIRE",
            Refusal::UnequalMirror => "UNEQUAL_MIRROR",
            Refusal::WrongSize => "WRONG_SIZE",
            Refusal::BadQuery => "BAD_QUERY",
            Refusal::BeyondTheItems => "BEYOND_THE_ITEMS",
            Refusal::OverSix => "OVER_SIX",
        })
    }
}

// The answer number of a call: 0 where it is answered, and else its refusal's number.
pub fn answer<T: Drop>(outcome: Result<T, Refusal>) -> u32
    ensures { result ≡ refusals.answer_of outcome }
{
    match outcome {
        Ok(_) => 0,
        Err(why) => why.number(),
    }
}
