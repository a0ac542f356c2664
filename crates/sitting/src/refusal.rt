//! Why a call was refused.
ghost use Rattle.std.specs.Prelude.{◌≡◌, Some};
ghost use Rattle.sitting.specs.declared.refusal.CallRefusal.TheVariants.{Pile, Price};
ghost use Rattle.sitting.specs.Refusals.{number_of, refusal_words};

use price::PriceRefusal;
use std::error::Error;
use std::fmt;
use tier::Refusal;

/// The refusal as the pile gave it, of a set or tighten, or that of a price.
#[derive(Clone, Copy, PartialEq, Eq, Debug)]
pub enum CallRefusal {
    Pile(Refusal),
    Price(PriceRefusal),
}

impl From<Refusal> for CallRefusal {
    ghost from_gives = { λ x y. y ≡ Pile x };

    fn from(value: Refusal) -> CallRefusal {
        CallRefusal::Pile(value)
    }
}

impl From<PriceRefusal> for CallRefusal {
    ghost from_gives = { λ x y. y ≡ Price x };

    fn from(value: PriceRefusal) -> CallRefusal {
        CallRefusal::Price(value)
    }
}

impl CallRefusal {
    /// 1 to 5 for a price, 6 to 11 for a set or tighten.
    pub fn number(self) -> u8
        ensures { result ≡ number_of self }
    {
        match self {
            CallRefusal::Pile(refusal) => refusal.number(),
            CallRefusal::Price(refusal) => refusal.number(),
        }
    }
}

impl fmt::Display for CallRefusal {
    ghost output = { λ refusal. Some (refusal_words refusal) };

    fn fmt<W: fmt::Write>(&self, f: &mut fmt::Formatter<W>) -> fmt::Result {
        write!(f, "refused by {}", self.number())
    }
}

impl Error for CallRefusal {}
