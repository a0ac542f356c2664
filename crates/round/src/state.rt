//! Where a van stands along a route.
ghost use Rattle.std.specs.Prelude.{Some};
ghost use Rattle.round.specs.Told.{barred_words};

use std::fmt;

/// The minute and the load with which a van stands at a place.
#[derive(Clone, Copy, PartialEq, Eq, Debug)]
pub struct RoundState {
    pub minute: u16,
    pub load: u16,
}

/// Why a leg is barred.
// Each kind of bottom names and prints its own reasons, the missing leg among them.
#[derive(Clone, Copy, PartialEq, Eq, Debug)]
pub enum Barred {
    /// there is no such leg: `from` is no place, `to` is no stop, or they are the same; for the way
    /// home, `from` is no stop
    NoLeg,
    /// the minute of arrival, and when the window closes
    TooLate(u32, u16),
    /// the load with that of the stop, and the capacity
    TooHeavy(u32, u16),
}

impl fmt::Display for Barred {
    ghost output = { λ barred. Some (barred_words barred) };

    fn fmt<W: fmt::Write>(&self, f: &mut fmt::Formatter<W>) -> fmt::Result {
        match self {
            Barred::NoLeg => write!(f, "there is no such leg"),
            Barred::TooLate(arrival, closes) => {
                write!(f, "arrives at {arrival}, the window closes at {closes}")
            }
            Barred::TooHeavy(load, capacity) => {
                write!(f, "the load would be {load}, the van carries {capacity}")
            }
        }
    }
}
