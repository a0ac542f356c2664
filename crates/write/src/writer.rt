//! Writing a whole deck.
ghost use Rattle.std.specs.Prelude.{◌≡◌, ℕ, List};
ghost use Rattle.output.specs.Outputs.{Wrote};
ghost use Rattle.book.specs.Books.{contents};
ghost use Rattle.deck.specs.Bytes.{lines_bytes, end_bytes, deck_bytes};
ghost use Rattle.deck.specs.Trips.{ReadBack, WrittenBack};
ghost use Rattle.write.specs.Writing.{fitted, filled};

use super::first_line::write_first_line;
use super::items::{close_line, open_line};
use super::leg_lines::write_legs;
use super::stop_lines::write_stops;
use book::Book;
use output::{Full, Out};
use words::Keyword;

// `(end)`
fn write_end(out: &mut Out) -> Result<(), Full>
    ensures { Wrote out.old out.new result end_bytes }
{
    open_line(out, Keyword::End)?;
    close_line(out)
}

fn write_lines(out: &mut Out, book: &Book) -> Result<(), Full>
    ensures { Wrote out.old out.new result (lines_bytes (contents book.now)) }
{
    write_first_line(out, book.stops(), book.fleet())?;
    write_stops(out, book)?;
    write_legs(out, book)?;
    write_end(out)
}

/// Writes the deck of a book to the front of a buffer: answers how many bytes these are, and leaves the
/// others. The empty book is written as no bytes. Where the deck does not fit, the whole buffer becomes
/// zeros. What is written of a book is read back as that book, and of every text that reads, the bytes
/// read are those that are written of its book.
#[tactic(auto, using(std::proofs::lemmas::Grind::common_steps, output::proofs::Lent::all_written))]
pub fn write_deck(book: &Book, buffer: &mut [u8]) -> Result<usize, Full>
    ensures count { result ≡ fitted (deck_bytes (contents book.now)) buffer.old }
    ensures bytes { buffer.new ≡ filled (deck_bytes (contents book.now)) buffer.old }
    ensures read_back { ReadBack (contents book.now) }
    ensures written_back { (text : List ℕ) → WrittenBack text }
{
    let empty = book.stops() == 0;
    if empty {
        return Ok(0);
    }
    let mut out = Out::new(buffer);
    match write_lines(&mut out, book) {
        Ok(()) => Ok(out.filled()),
        Err(full) => {
            buffer.fill(0);
            Err(full)
        }
    }
}
