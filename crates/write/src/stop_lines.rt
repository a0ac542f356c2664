//! The lines of the stops.
ghost use Rattle.std.specs.Prelude.{◌≤◌, length};
ghost use Rattle.output.specs.Outputs.{Wrote};
ghost use Rattle.words.specs.declared.vocabulary.Keyword.TheVariants.{Charger};
ghost use Rattle.book.specs.Books.{contents};
ghost use Rattle.deck.specs.Bytes.{item_bytes, window_bytes, charger_number, stop_bytes, stops_bytes};

use super::items::{close_line, open_item, open_numbered, write_item};
use book::{Book, Visit};
use output::{Full, Out};
use words::Keyword;

// ` (window OPENS CLOSES)`
fn write_window(out: &mut Out, opens: u16, closes: u16) -> Result<(), Full>
    ensures { Wrote out.old out.new result (window_bytes opens closes) }
{
    open_item(out, Keyword::Window)?;
    out.number(u64::from(opens))?;
    out.bytes(b" ")?;
    out.number(u64::from(closes))?;
    out.bytes(b")")
}

fn write_charger(out: &mut Out, charger: bool) -> Result<(), Full>
    ensures { Wrote out.old out.new result (item_bytes Charger (charger_number charger)) }
{
    write_item(out, Keyword::Charger, u64::from(charger))
}

// `(stop J (window OPENS CLOSES) (load L) (charger C))`
fn write_stop(out: &mut Out, stop: usize, visit: Visit) -> Result<(), Full>
    ensures { Wrote out.old out.new result (stop_bytes stop visit) }
{
    open_numbered(out, Keyword::Stop, stop)?;
    write_window(out, visit.opens, visit.closes)?;
    write_item(out, Keyword::Load, u64::from(visit.load))?;
    write_charger(out, visit.charger)?;
    close_line(out)
}

/// The lines of stops 1 to n.
pub(crate) fn write_stops(out: &mut Out, book: &Book) -> Result<(), Full>
    requires { out.old.len ≤ length out.old.out.now }
    ensures { Wrote out.old out.new result (stops_bytes (contents book.now) (contents book.now).stops 1) }
{
    // by number: a book hands out one visit at a time
    for stop in 1..=book.stops() {
        write_stop(out, stop, book.visit(stop).unwrap())?;
    }
    Ok(())
}
