//! The book: stops with windows, loads and chargers, the fleet, and the table of legs.
#![tactic(auto)]

mod book;
mod calls;
mod limits;
mod out_of_range;
mod parts;

pub use book::Book;
pub use limits::{LAST_MINUTE, MOST_BATTERY, MOST_COST, MOST_MADE, MOST_MINUTES, MOST_VANS};
pub use out_of_range::OutOfRange;
pub use parts::{Fleet, Leg, Visit};
