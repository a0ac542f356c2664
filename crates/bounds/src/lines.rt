//! How lines open and close.
ghost use Rattle.std.specs.Prelude.{◌≡◌};
ghost use Rattle.std.specs.Range.{range_inclusive_start, range_inclusive_end};
ghost use Rattle.text.specs.Readers.{Read};
ghost use Rattle.form.specs.Forms.{same, named};
ghost use Rattle.bounds.specs.Bounds.{misplaced_of, line_named, line_name, line_opening, numbered_opening, line_closing};

use super::fault::BookFault;
use super::numbers::due_in_order;
use form::{FormFault, Mark, Name, due_mark, due_name};
use std::ops::RangeInclusive;
use text::Cursor;
use words::Keyword;

/// The fault of a word that opens a line where another was due: 17 if it is the name of a line, else 14.
pub fn misplaced(name: Name) -> BookFault
    ensures { result ≡ misplaced_of (named name) }
{
    if name.value.opens_line() {
        BookFault::Order(name.place)
    } else {
        BookFault::Form(FormFault::NotDue(name.place))
    }
}

fn is_due(name: Name, due: Keyword) -> Result<(), BookFault>
    ensures { result ≡ line_named due (named name) }
{
    if name.value.is(due) {
        Ok(())
    } else {
        Err(misplaced(name))
    }
}

fn due_line(cursor: &mut Cursor, due: Keyword) -> Result<(), BookFault>
    ensures { Read same cursor.old cursor.new result (line_name due) }
{
    let name = due_name(cursor)?;
    is_due(name, due)
}

/// `(` and the name of the line that is due.
pub fn open_line(cursor: &mut Cursor, due: Keyword) -> Result<(), BookFault>
    ensures { Read same cursor.old cursor.new result (line_opening due) }
{
    due_mark(cursor, Mark::Open)?;
    due_line(cursor, due)
}

/// `(`, the name of a line, a blank and the number of the line, of those in a range.
pub fn open_numbered(
    cursor: &mut Cursor,
    line: Keyword,
    range: RangeInclusive<usize>,
    due: usize,
) -> Result<(), BookFault>
    ensures { Read same cursor.old cursor.new result (numbered_opening line (range_inclusive_start range) (range_inclusive_end range) due) }
{
    open_line(cursor, line)?;
    due_mark(cursor, Mark::Blank)?;
    due_in_order(cursor, range, due)
}

/// `)` and a line feed.
pub fn close_line(cursor: &mut Cursor) -> Result<(), FormFault>
    ensures { Read same cursor.old cursor.new result line_closing }
{
    due_mark(cursor, Mark::Close)?;
    due_mark(cursor, Mark::Feed)
}
