//! Reading a whole deck.
ghost use Rattle.std.specs.Prelude.{◌≡◌};
ghost use Rattle.book.specs.Books.{contents};
ghost use Rattle.text.specs.Readers.{Read};
ghost use Rattle.form.specs.Forms.{same};
ghost use Rattle.deck.specs.Lines.{end_line, deck, handed};

use super::first_line::read_first_line;
use super::reading::Reading;
use book::Book;
use bounds::{BookFault, close_line, open_line};
use form::FormFault;
use text::Cursor;
use words::Keyword;

// `(end)`
fn read_end(cursor: &mut Cursor) -> Result<(), BookFault>
    ensures { Read same cursor.old cursor.new result end_line }
{
    open_line(cursor, Keyword::End)?;
    Ok(close_line(cursor)?)
}

impl<'a> Reading<'a> {
    // The lines of a deck, into a book that then says nothing else.
    fn read_lines(&mut self) -> Result<(), BookFault>
        ensures { Read (λ _. contents self.new.book) self.old.cursor self.new.cursor result deck }
    {
        let first = read_first_line(&mut self.cursor)?;
        // all its numbers are in their ranges, so the book can be made
        self.book = Book::new(first.stops, first.fleet).unwrap();
        self.read_stops()?;
        self.read_legs()?;
        read_end(&mut self.cursor)
    }
}

/// Reads a deck from the front of a text: its book, and the place after the line of `end`; or the empty
/// book, and the first fault. What follows the deck is not looked at.
// The book stands beside the answer: a fault hands out the empty one.
pub fn read_deck(text: &[u8]) -> (Book, Result<usize, BookFault>)
    ensures { (contents result.0, result.1) ≡ handed (deck text.now 0) }
{
    let mut reading = Reading {
        cursor: Cursor::new(text),
        book: Book::empty(),
    };
    match reading.read_lines() {
        Ok(()) => (reading.book, Ok(reading.cursor.place())),
        Err(fault) => (Book::empty(), Err(fault)),
    }
}
