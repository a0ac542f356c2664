//! How the items of a line open.
ghost use Rattle.std.specs.Prelude.{◌≡◌};
ghost use Rattle.text.specs.Readers.{Read};
ghost use Rattle.form.specs.Forms.{same};
ghost use Rattle.bounds.specs.Bounds.{nested_opening, item_name, item_opening};

use form::{FormFault, Mark, due_mark, due_word};
use text::Cursor;
use words::Keyword;

/// A blank and `(`.
pub fn open_nested(cursor: &mut Cursor) -> Result<(), FormFault>
    ensures { Read same cursor.old cursor.new result nested_opening }
{
    due_mark(cursor, Mark::Blank)?;
    due_mark(cursor, Mark::Open)
}

// The name of an item and a blank.
fn due_item(cursor: &mut Cursor, item: Keyword) -> Result<(), FormFault>
    ensures { Read same cursor.old cursor.new result (item_name item) }
{
    due_word(cursor, item)?;
    due_mark(cursor, Mark::Blank)
}

/// A blank, `(`, the name of an item and a blank.
pub fn open_item(cursor: &mut Cursor, item: Keyword) -> Result<(), FormFault>
    ensures { Read same cursor.old cursor.new result (item_opening item) }
{
    open_nested(cursor)?;
    due_item(cursor, item)
}
