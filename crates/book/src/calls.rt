//! Making a book, and reading it.
ghost use Rattle.std.specs.Prelude.{◌≡◌, true, false, is_ok, if◌then◌else◌, Some, None, MatchResult};
ghost use Rattle.book.specs.Ranges.{fleet_ok, fleet_fits, visit_fits, leg_fits};
ghost use Rattle.book.specs.Books.{contents, is_stop, is_place, visit_at, leg_at, opened, empty_book, can_put_visit, with_visit, can_put_leg, with_leg};

use super::book::Book;
use super::limits::{
    LAST_MINUTE, MOST_BATTERY, MOST_COST, MOST_MADE, MOST_MINUTES, MOST_VANS, TABLE_LENGTH,
};
use super::out_of_range::OutOfRange;
use super::parts::{Fleet, Leg, Visit};
use stops::{MOST_PLACES, MOST_STOPS};

// a constant cannot call `default`
const BLANK_VISIT: Visit = Visit {
    opens: 0,
    closes: 0,
    load: 0,
    charger: false,
};

const BLANK_LEG: Leg = Leg {
    cost: 0,
    minutes: 1,
};

// Whether the numbers of a deck's first line are in their ranges.
fn fits_fleet(stops: usize, fleet: Fleet) -> bool
    ensures { result ≡ fleet_fits stops fleet }
{
    (1..=MOST_STOPS).contains(&stops)
        && (1..=MOST_VANS).contains(&fleet.vans)
        && (1..=MOST_BATTERY).contains(&fleet.battery)
        && (1..=MOST_MADE).contains(&fleet.most)
}

fn fits_visit(visit: Visit) -> bool
    ensures { result ≡ visit_fits visit }
{
    visit.opens <= visit.closes && visit.closes <= LAST_MINUTE
}

fn fits_leg(leg: Leg) -> bool
    ensures { result ≡ leg_fits leg }
{
    leg.cost <= MOST_COST && (1..=MOST_MINUTES).contains(&leg.minutes)
}

// A book of which nothing is said but its first line.
fn unsaid(stops: usize, fleet: Fleet) -> Book
    requires { fleet_ok stops fleet ≡ true }
    ensures { contents result ≡ opened stops fleet }
{
    Book {
        stops,
        fleet,
        visits: [BLANK_VISIT; MOST_PLACES],
        legs: [BLANK_LEG; TABLE_LENGTH],
    }
}

impl Book {
    /// The book without stops.
    pub fn empty() -> Book
        ensures { contents result ≡ empty_book }
    {
        unsaid(0, Fleet::default())
    }

    /// A book of this many stops, of which nothing is said yet: until a visit or a leg is put, the
    /// window is from 0 to 0, without load or charger, and the leg costs 0 and takes one minute.
    pub fn new(stops: usize, fleet: Fleet) -> Result<Book, OutOfRange>
        ensures { MatchResult result (λ b. (fleet_fits stops fleet ≡ true) × (contents b ≡ opened stops fleet)) (λ _. fleet_fits stops fleet ≡ false) }
    {
        if !fits_fleet(stops, fleet) {
            return Err(OutOfRange);
        }
        Ok(unsaid(stops, fleet))
    }

    pub fn stops(&self) -> usize
        ensures { result ≡ (contents self.now).stops }
    {
        self.stops
    }

    pub fn fleet(&self) -> Fleet
        ensures { result ≡ (contents self.now).fleet }
    {
        self.fleet
    }

    /// The visit of a stop, if it is one of the book's.
    pub fn visit(&self, stop: usize) -> Option<Visit>
        ensures { result ≡ (if is_stop (contents self.now) stop then Some (visit_at (contents self.now) stop) else None) }
    {
        // two comparisons and no `contains`, which costs more: every leg asks for a visit
        if stop < 1 || stop > self.stops {
            return None;
        }
        Some(self.visits[stop])
    }

    /// The leg between two places of the book, (0, 0) from a place to itself.
    pub fn leg(&self, from: usize, to: usize) -> Option<Leg>
        ensures { result ≡ (if is_place (contents self.now) from then (if is_place (contents self.now) to then Some (leg_at (contents self.now) from to) else None) else None) }
    {
        if from > self.stops || to > self.stops {
            return None;
        }
        if from == to {
            return Some(Leg::default());
        }
        Some(self.legs[from * MOST_PLACES + to])
    }

    /// Says what the visit of a stop is; a refusal leaves the book as it was.
    pub fn put_visit(&mut self, stop: usize, visit: Visit) -> Result<(), OutOfRange>
        ensures answer { is_ok result ≡ can_put_visit (contents self.old) stop visit }
        ensures book { contents self.new ≡ (if can_put_visit (contents self.old) stop visit then with_visit (contents self.old) stop visit else contents self.old) }
    {
        if !self.takes_visit(stop, visit) {
            return Err(OutOfRange);
        }
        self.write_visit(stop, visit);
        Ok(())
    }

    /// Says what a leg costs and takes; from a place to itself only (0, 0) is taken. A refusal
    /// leaves the book as it was.
    pub fn put_leg(&mut self, from: usize, to: usize, leg: Leg) -> Result<(), OutOfRange>
        ensures answer { is_ok result ≡ can_put_leg (contents self.old) from to leg }
        ensures book { contents self.new ≡ (if can_put_leg (contents self.old) from to leg then with_leg (contents self.old) from to leg else contents self.old) }
    {
        if !self.takes_leg(from, to, leg) {
            return Err(OutOfRange);
        }
        self.write_leg(from, to, leg);
        Ok(())
    }

    // Whether the visit can be put: of a stop of the book, in its ranges.
    fn takes_visit(&self, stop: usize, visit: Visit) -> bool
        ensures { result ≡ can_put_visit (contents self.now) stop visit }
    {
        (1..=self.stops).contains(&stop) && fits_visit(visit)
    }

    // Whether the leg can be put: between places of the book, in its ranges.
    fn takes_leg(&self, from: usize, to: usize, leg: Leg) -> bool
        ensures { result ≡ can_put_leg (contents self.now) from to leg }
    {
        from <= self.stops
            && to <= self.stops
            && if from == to {
                leg == Leg::default()
            } else {
                fits_leg(leg)
            }
    }

    fn write_visit(&mut self, stop: usize, visit: Visit)
        requires { can_put_visit (contents self.old) stop visit ≡ true }
        ensures { contents self.new ≡ with_visit (contents self.old) stop visit }
    {
        self.visits[stop] = visit;
    }

    fn write_leg(&mut self, from: usize, to: usize, leg: Leg)
        requires { can_put_leg (contents self.old) from to leg ≡ true }
        ensures { contents self.new ≡ with_leg (contents self.old) from to leg }
    {
        if from != to {
            self.legs[from * MOST_PLACES + to] = leg;
        }
    }
}
