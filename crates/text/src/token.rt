//! Tokens.

/// A token that is told by its byte alone.
#[derive(Clone, Copy, PartialEq, Eq)]
pub enum Mark {
    Open,
    Close,
    Blank,
    /// a line feed
    Feed,
}

/// A token with its place. A word and a number hold their part of the text.
#[derive(Clone, Copy)]
pub enum Token<'a> {
    Mark(Mark, usize),
    Word(&'a [u8], usize),
    Number(u64, &'a [u8], usize),
    /// a hyphen and a number that is not 0; the part begins at the hyphen
    Negative(u64, &'a [u8], usize),
    /// the text ends; the place is its length
    End(usize),
}
