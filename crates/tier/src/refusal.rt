//! Why a set or a tighten was refused.
ghost use Rattle.std.specs.Prelude.{◌≡◌};

/// Each refusal has a number, by which it is known.
#[derive(Clone, Copy, PartialEq, Eq, Debug)]
pub enum Refusal {
    /// the tier is 0 or above the pile
    NoSuchTier = 6,
    /// a bottom takes no tighten, and some layers no set
    NotAtThisTier = 7,
    /// there is no such stop or cut
    NoSuchIndex = 8,
    /// the amount is out of range, or not 0 where 0 is due
    BadAmount = 9,
    /// the set has a member that is no stop, or a new cut has not exactly three
    BadMembers = 10,
    /// the table of cuts is full
    TableFull = 11,
}

impl Refusal {
    ghost use Rattle.tier.specs.Refusals.{number as «number_of»};

    /// The number by which the refusal is known.
    pub fn number(self) -> u8
        ensures { result ≡ «number_of» self }
    {
        self as u8
    }
}
