// Why a solve gives no fix: the refusals of document 01 that the rounds meet.
ghost use Rattle.std.specs.Prelude.{◌≡◌};
ghost use Rattle.refusals.specs.Refusals as refusals;
ghost use Rattle.rounds.specs.Solve.{refusal_number, refusal_detail};
ghost use Rattle.rounds.specs.Setting.{of_unfit, of_unpublished};

use crate::finish::Unpublished;
use best::Unfit;

// 1 to 6, 8 and 9 of document 01. Too few says how many are included.
#[derive(Clone, Copy, Debug, PartialEq, Eq)]
pub enum Refusal {
    TooFew(u32),
    NoConvergence,
    OutOfRange,
    NoFixedPoint,
    Inconsistent,
    Singular,
    Ambiguous,
    Uncertain,
}

impl Refusal {
    // Its number in document 01.
    pub fn number(self) -> u32
        ensures { result ≡ refusal_number self }
    {
        refusals::Refusal::from(self).number()
    }

    // Its detail in document 01.
    pub fn detail(self) -> u32
        ensures { result ≡ refusal_detail self }
    {
        match self {
            Refusal::TooFew(included) => included,
            _ => 0,
        }
    }
}

// As document 01 lists them.
impl From<Refusal> for refusals::Refusal {
    ghost from_gives = { λ why e. refusals.number_of e ≡ refusal_number why };

    fn from(why: Refusal) -> refusals::Refusal {
        match why {
            Refusal::TooFew(_) => refusals::Refusal::TooFew,
            Refusal::NoConvergence => refusals::Refusal::NoConvergence,
            Refusal::OutOfRange => refusals::Refusal::OutOfRange,
            Refusal::NoFixedPoint => refusals::Refusal::NoFixedPoint,
            Refusal::Inconsistent => refusals::Refusal::Inconsistent,
            Refusal::Singular => refusals::Refusal::Singular,
            Refusal::Ambiguous => refusals::Refusal::Ambiguous,
            Refusal::Uncertain => refusals::Refusal::Uncertain,
        }
    }
}

// By what a best fit met.
impl From<Unfit> for Refusal {
    ghost from_gives = { λ why e. e ≡ of_unfit why };

    fn from(why: Unfit) -> Refusal {
        match why {
            Unfit::NoConvergence => Refusal::NoConvergence,
            Unfit::OutOfRange => Refusal::OutOfRange,
            Unfit::Ambiguous => Refusal::Ambiguous,
            Unfit::Singular => Refusal::Singular,
        }
    }
}

// By what the steps after the rounds met.
impl From<Unpublished> for Refusal {
    ghost from_gives = { λ why e. e ≡ of_unpublished why };

    fn from(why: Unpublished) -> Refusal {
        match why {
            Unpublished::Inconsistent => Refusal::Inconsistent,
            Unpublished::Singular => Refusal::Singular,
            Unpublished::Uncertain => Refusal::Uncertain,
            Unpublished::OutOfRange => Refusal::OutOfRange,
        }
    }
}
