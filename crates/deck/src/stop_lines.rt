//! The lines of the stops.
ghost use Rattle.std.specs.Prelude.{◌≡◌};
ghost use Rattle.book.specs.Books.{contents};
ghost use Rattle.text.specs.Readers.{Read};
ghost use Rattle.form.specs.Forms.{same};
ghost use Rattle.deck.specs.Lines.{window_item, charger_item, stop_line, stop_lines};

use super::items::read_item;
use super::reading::Reading;
use book::{LAST_MINUTE, Visit};
use bounds::{BookFault, close_line, due_within, open_item, open_numbered};
use form::{FormFault, Mark, due_mark};
use text::Cursor;
use words::Keyword;

// ` (window OPENS CLOSES)`
fn read_window(cursor: &mut Cursor) -> Result<(u16, u16), BookFault>
    ensures { Read same cursor.old cursor.new result window_item }
{
    open_item(cursor, Keyword::Window)?;
    let opens = due_within(cursor, 0..=LAST_MINUTE)?;
    due_mark(cursor, Mark::Blank)?;
    let closes = due_within(cursor, opens..=LAST_MINUTE)?;
    due_mark(cursor, Mark::Close)?;
    Ok((opens, closes))
}

fn read_charger(cursor: &mut Cursor) -> Result<bool, BookFault>
    ensures { Read same cursor.old cursor.new result charger_item }
{
    let n: u8 = read_item(cursor, Keyword::Charger, 0..=1)?;
    Ok(n == 1)
}

// `(stop J (window OPENS CLOSES) (load L) (charger C))`, where stop `due` of 1 to `stops` is due.
fn read_stop(cursor: &mut Cursor, stops: usize, due: usize) -> Result<Visit, BookFault>
    ensures { Read same cursor.old cursor.new result (stop_line stops due) }
{
    open_numbered(cursor, Keyword::Stop, 1..=stops, due)?;
    let (opens, closes) = read_window(cursor)?;
    let load = read_item(cursor, Keyword::Load, 0..=u16::MAX)?;
    let charger = read_charger(cursor)?;
    close_line(cursor)?;
    Ok(Visit {
        opens,
        closes,
        load,
        charger,
    })
}

impl<'a> Reading<'a> {
    /// The lines of stops 1 to n, into a book of n stops.
    pub(crate) fn read_stops(&mut self) -> Result<(), BookFault>
        ensures { Read (λ _. contents self.new.book) self.old.cursor self.new.cursor result (stop_lines (contents self.old.book) (contents self.old.book).stops 1) }
    {
        let stops = self.book.stops();
        for stop in 1..=stops {
            let visit = read_stop(&mut self.cursor, stops, stop)?;
            // all its numbers are in their ranges, so the book takes it
            self.book.put_visit(stop, visit).unwrap();
        }
        Ok(())
    }
}
