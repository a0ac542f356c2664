//! The road of the tests: two stops, and a leg from the first to the second.
use book::{Book, Fleet, Leg, OutOfRange, Visit};

/// To the second stop, which is `visit`, it takes so many minutes from the first.
pub(crate) fn road(visit: Visit, minutes: u16) -> Result<Book, OutOfRange> {
    let fleet = Fleet {
        vans: 1,
        capacity: 10,
        battery: 40,
        most: 4,
    };
    let mut book = Book::new(2, fleet)?;
    book.put_visit(2, visit)?;
    book.put_leg(1, 2, Leg { cost: 4, minutes })?;
    Ok(book)
}
