//! The lines of the legs.
ghost use Rattle.std.specs.Prelude.{◌≡◌, suc, ◌≤◌};
ghost use Rattle.book.specs.Books.{contents};
ghost use Rattle.text.specs.Readers.{Read};
ghost use Rattle.form.specs.Forms.{same};
ghost use Rattle.bounds.specs.Bounds.{number_within};
ghost use Rattle.deck.specs.Lines.{most_cost_between, least_minutes_between, most_minutes_between, leg_pair, leg_pairs, leg_line, leg_lines};

use super::reading::Reading;
use book::{Leg, MOST_COST, MOST_MINUTES};
use bounds::{BookFault, close_line, due_within, open_nested, open_numbered};
use form::{FormFault, Mark, due_mark};
use text::Cursor;
use words::Keyword;

// Two parameters, from and to: everywhere a leg is asked for by its two numbers. And two functions, for cost
// and minutes: in one function the proof did not close where its branches meet.
fn read_cost(cursor: &mut Cursor, from: usize, to: usize) -> Result<u32, BookFault>
    ensures { Read same cursor.old cursor.new result (number_within 0 (most_cost_between from to)) }
{
    let most = if from == to { 0 } else { MOST_COST };
    due_within(cursor, 0..=most)
}

fn read_minutes(cursor: &mut Cursor, from: usize, to: usize) -> Result<u16, BookFault>
    ensures { Read same cursor.old cursor.new result (number_within (least_minutes_between from to) (most_minutes_between from to)) }
{
    let range = if from == to { 0..=0 } else { 1..=MOST_MINUTES };
    due_within(cursor, range)
}

// ` (COST MINUTES)`
fn read_leg(cursor: &mut Cursor, from: usize, to: usize) -> Result<Leg, BookFault>
    ensures { Read same cursor.old cursor.new result (leg_pair from to) }
{
    open_nested(cursor)?;
    let cost = read_cost(cursor, from, to)?;
    due_mark(cursor, Mark::Blank)?;
    let minutes = read_minutes(cursor, from, to)?;
    due_mark(cursor, Mark::Close)?;
    Ok(Leg { cost, minutes })
}

impl<'a> Reading<'a> {
    // The legs from a place to each of the places 0 to n.
    fn read_pairs(&mut self, from: usize) -> Result<(), BookFault>
        requires { from ≤ (contents self.old.book).stops }
        ensures { Read (λ _. contents self.new.book) self.old.cursor self.new.cursor result (leg_pairs from (contents self.old.book) (suc (contents self.old.book).stops) 0) }
    {
        for to in 0..=self.book.stops() {
            let leg = read_leg(&mut self.cursor, from, to)?;
            // its numbers are in their ranges, so the book takes it
            self.book.put_leg(from, to, leg).unwrap();
        }
        Ok(())
    }

    // `(legs I (COST MINUTES) ..)`, where the legs from place `due` are due.
    fn read_leg_line(&mut self, due: usize) -> Result<(), BookFault>
        requires { due ≤ (contents self.old.book).stops }
        ensures { Read (λ _. contents self.new.book) self.old.cursor self.new.cursor result (leg_line (contents self.old.book) due) }
    {
        let stops = self.book.stops();
        open_numbered(&mut self.cursor, Keyword::Legs, 0..=stops, due)?;
        self.read_pairs(due)?;
        Ok(close_line(&mut self.cursor)?)
    }

    /// The lines of the legs from places 0 to n, into a book of n stops.
    pub(crate) fn read_legs(&mut self) -> Result<(), BookFault>
        ensures { Read (λ _. contents self.new.book) self.old.cursor self.new.cursor result (leg_lines (contents self.old.book) (suc (contents self.old.book).stops) 0) }
    {
        for from in 0..=self.book.stops() {
            self.read_leg_line(from)?;
        }
        Ok(())
    }
}
