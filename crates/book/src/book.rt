//! The type of a book, with the ranges of its numbers.
ghost use Rattle.std.specs.Prelude.{◌≡◌, ◌*◌, true, length};
ghost use Rattle.stops.specs.Stops.{most_places};
ghost use Rattle.book.specs.Ranges.{fleet_ok, VisitsOk, LegsOk};

use super::limits::TABLE_LENGTH;
use super::parts::{Fleet, Leg, Visit};
use stops::MOST_PLACES;

/// A book: the record of a deck. All its numbers are in their ranges.
#[derive(Drop)]
pub struct Book {
    pub(crate) stops: usize,
    pub(crate) fleet: Fleet,
    // all places that a stop can have: without a heap, making a book cannot fail for want of memory
    pub(crate) visits: [Visit; MOST_PLACES],
    // one flat table: with rows each fact about a leg is said of its row and again within the row
    pub(crate) legs: [Leg; TABLE_LENGTH],
    ghost fleets: { fleet_ok stops fleet ≡ true },
    ghost visiting: { VisitsOk stops visits },
    ghost driving: { LegsOk stops legs },
    // a law does not know the length of an array
    ghost places: { length visits ≡ most_places },
    ghost pairs: { length legs ≡ most_places * most_places },
}
