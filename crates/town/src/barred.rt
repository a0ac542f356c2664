//! Why a van with a battery cannot go on.
ghost use Rattle.std.specs.Prelude.{Some};
ghost use Rattle.town.specs.Told.{barred_words};

use std::fmt;

/// Why a leg is barred.
// Each kind of bottom names and prints its own reasons, the missing leg among them.
#[derive(Clone, Copy, PartialEq, Eq, Debug)]
pub enum Barred {
    /// there is no such leg: `from` is no place or `to` no stop, or they are the same; for the way
    /// home, `from` is no stop
    NoLeg,
    /// the minutes of the leg, and the charge that is left
    TooFar(u16, u16),
    /// the stops made with this one, and the most that a van makes
    TooMany(u16, u8),
}

impl fmt::Display for Barred {
    ghost output = { λ barred. Some (barred_words barred) };

    fn fmt<W: fmt::Write>(&self, f: &mut fmt::Formatter<W>) -> fmt::Result {
        match self {
            Barred::NoLeg => write!(f, "there is no such leg"),
            Barred::TooFar(minutes, charge) => {
                write!(f, "the leg uses {minutes}, {charge} are left")
            }
            Barred::TooMany(made, most) => {
                write!(f, "it would make {made} stops, {most} are allowed")
            }
        }
    }
}
