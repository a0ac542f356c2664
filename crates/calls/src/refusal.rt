//! Why a price was refused.
ghost use Rattle.std.specs.Prelude.{◌≡◌, Some};
ghost use Rattle.calls.specs.Refusals.{number as «number_of», refusal_words};

use std::error::Error;
use std::fmt;

/// Each refusal has a number, by which it is known.
#[derive(Clone, Copy, PartialEq, Eq, Debug)]
pub enum PriceRefusal {
    /// the pile has over four tiers
    TooManyTiers = 1,
    /// the vans are not 1 to 60
    BadVans = 2,
    /// there are no stops, or the places are none or over 262,144
    BadPlaces = 3,
    /// the row has under 1,440 numbers
    ShortRow = 4,
    /// live labels fill the places when another is to be kept
    StoreFull = 5,
}

impl PriceRefusal {
    /// The number by which the refusal is known.
    pub fn number(self) -> u8
        ensures { result ≡ «number_of» self }
    {
        self as u8
    }
}

impl fmt::Display for PriceRefusal {
    ghost output = { λ refusal. Some (refusal_words refusal) };

    fn fmt<W: fmt::Write>(&self, f: &mut fmt::Formatter<W>) -> fmt::Result {
        write!(f, "refused by {}", self.number())
    }
}

impl Error for PriceRefusal {}
