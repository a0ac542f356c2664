//! The lines of the legs.
ghost use Rattle.std.specs.Prelude.{suc, ◌≤◌, length};
ghost use Rattle.output.specs.Outputs.{Wrote};
ghost use Rattle.book.specs.Books.{contents};
ghost use Rattle.deck.specs.Bytes.{leg_bytes, pairs_bytes, leg_line_bytes, leg_lines_bytes};

use super::items::{close_line, open_numbered};
use book::{Book, Leg};
use output::{Full, Out};
use words::Keyword;

// ` (COST MINUTES)`
fn write_leg(out: &mut Out, leg: Leg) -> Result<(), Full>
    ensures { Wrote out.old out.new result (leg_bytes leg) }
{
    out.bytes(b" (")?;
    out.number(u64::from(leg.cost))?;
    out.bytes(b" ")?;
    out.number(u64::from(leg.minutes))?;
    out.bytes(b")")
}

// The legs from a place to each of the places 0 to n.
fn write_pairs(out: &mut Out, book: &Book, from: usize) -> Result<(), Full>
    requires room { out.old.len ≤ length out.old.out.now }
    requires place { from ≤ (contents book.now).stops }
    ensures { Wrote out.old out.new result (pairs_bytes (contents book.now) from (suc (contents book.now).stops) 0) }
{
    // by number: the leg from a place to itself stands in no table
    for to in 0..=book.stops() {
        write_leg(out, book.leg(from, to).unwrap())?;
    }
    Ok(())
}

// `(legs I (COST MINUTES) ..)`
fn write_leg_line(out: &mut Out, book: &Book, from: usize) -> Result<(), Full>
    requires { from ≤ (contents book.now).stops }
    ensures { Wrote out.old out.new result (leg_line_bytes (contents book.now) from) }
{
    open_numbered(out, Keyword::Legs, from)?;
    write_pairs(out, book, from)?;
    close_line(out)
}

/// The lines of the legs from places 0 to n.
pub(crate) fn write_legs(out: &mut Out, book: &Book) -> Result<(), Full>
    requires { out.old.len ≤ length out.old.out.now }
    ensures { Wrote out.old out.new result (leg_lines_bytes (contents book.now) (suc (contents book.now).stops) 0) }
{
    for from in 0..=book.stops() {
        write_leg_line(out, book, from)?;
    }
    Ok(())
}
