//! Items of a line: a name and a number in brackets.
ghost use Rattle.std.specs.Prelude.{◌≡◌};
ghost use Rattle.std.specs.Range.{range_inclusive_start, range_inclusive_end};
ghost use Rattle.text.specs.Readers.{Read};
ghost use Rattle.deck.specs.Lines.{item};

use bounds::{BookFault, Natural, due_within, open_item};
use form::{FormFault, Mark, due_mark};
use std::ops::RangeInclusive;
use text::Cursor;
use words::Keyword;

/// ` (NAME NUMBER)`
pub(crate) fn read_item<N: Natural>(
    cursor: &mut Cursor,
    name: Keyword,
    range: RangeInclusive<N>,
) -> Result<N, BookFault>
    ensures { Read N.value cursor.old cursor.new result (item name (N.value (range_inclusive_start range)) (N.value (range_inclusive_end range))) }
{
    open_item(cursor, name)?;
    let n = due_within(cursor, range)?;
    due_mark(cursor, Mark::Close)?;
    Ok(n)
}
