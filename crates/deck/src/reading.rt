//! A deck that is being read.
use book::Book;
use text::Cursor;

/// How far a text is read, and the book that says what was read.
#[derive(Drop)]
pub(crate) struct Reading<'a> {
    pub(crate) cursor: Cursor<'a>,
    pub(crate) book: Book,
}
