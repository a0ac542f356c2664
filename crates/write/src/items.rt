//! How lines and their items open and close.
ghost use Rattle.output.specs.Outputs.{Wrote};
ghost use Rattle.words.specs.Vocabulary.{spelt};
ghost use Rattle.bounds.specs.Bytes.{line_start, numbered_start, item_start, line_end};
ghost use Rattle.deck.specs.Bytes.{item_bytes};

use output::{Full, Out};
use words::{Keyword, spelling};

fn write_word(out: &mut Out, word: Keyword) -> Result<(), Full>
    ensures { Wrote out.old out.new result (spelt word) }
{
    out.bytes(spelling(word))
}

/// `(` and the name of a line.
pub(crate) fn open_line(out: &mut Out, line: Keyword) -> Result<(), Full>
    ensures { Wrote out.old out.new result (line_start line) }
{
    out.bytes(b"(")?;
    write_word(out, line)
}

/// `(`, the name of a line, a blank and its number.
pub(crate) fn open_numbered(out: &mut Out, line: Keyword, number: usize) -> Result<(), Full>
    ensures { Wrote out.old out.new result (numbered_start line number) }
{
    open_line(out, line)?;
    out.bytes(b" ")?;
    out.number(number as u64)
}

/// A blank, `(`, the name of an item and a blank.
pub(crate) fn open_item(out: &mut Out, item: Keyword) -> Result<(), Full>
    ensures { Wrote out.old out.new result (item_start item) }
{
    out.bytes(b" (")?;
    write_word(out, item)?;
    out.bytes(b" ")
}

/// An item with its number.
pub(crate) fn write_item(out: &mut Out, item: Keyword, n: u64) -> Result<(), Full>
    ensures { Wrote out.old out.new result (item_bytes item n) }
{
    open_item(out, item)?;
    out.number(n)?;
    out.bytes(b")")
}

/// `)` and a line feed.
pub(crate) fn close_line(out: &mut Out) -> Result<(), Full>
    ensures { Wrote out.old out.new result line_end }
{
    out.bytes(b")\n")
}
