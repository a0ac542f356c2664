//! What is read, with its place.
use words::Keyword;

/// What a token says, and its place.
#[derive(Clone, Copy)]
pub struct Placed<T> {
    pub value: T,
    pub place: usize,
}

/// A word of the forms.
pub type Name = Placed<Keyword>;

/// A number.
pub type Numeral = Placed<u64>;

/// A number with a sign.
pub type Amount = Placed<i64>;
