//! Why a book refuses.
use std::error::Error;
use std::fmt;

/// A number is outside its range, or a stop or place is not one of the book's.
#[derive(Clone, Copy, PartialEq, Eq, Debug)]
pub struct OutOfRange;

impl fmt::Display for OutOfRange {
    ghost use Rattle.std.specs.Prelude.{Some, codes};

    ghost output = { λ _. Some (codes "a number of the book is out of range") };

    fn fmt<W: fmt::Write>(&self, f: &mut fmt::Formatter<W>) -> fmt::Result {
        f.write_str("a number of the book is out of range")
    }
}

impl Error for OutOfRange {}
