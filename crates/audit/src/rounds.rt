//! The books that are audited.
use book::{Book, Fleet, Leg, OutOfRange, Visit};

fn visit(opens: u16, closes: u16, load: u16, charger: bool) -> Visit {
    Visit {
        opens,
        closes,
        load,
        charger,
    }
}

/// Two visits whose windows both open at minute zero.
pub(crate) fn two_visits(capacity: u16) -> Result<Book, OutOfRange> {
    let fleet = Fleet {
        vans: 2,
        capacity,
        battery: 9,
        most: 2,
    };
    let mut book = Book::new(2, fleet)?;
    book.put_visit(1, visit(0, 10, 2, false))?;
    book.put_visit(2, visit(0, 20, 3, true))?;
    for (from, to, cost, minutes) in [
        (0, 1, 10, 5),
        (0, 2, 12, 6),
        (1, 0, 10, 5),
        (1, 2, 4, 3),
        (2, 0, 12, 6),
        (2, 1, 7, 3),
    ] {
        book.put_leg(from, to, Leg { cost, minutes })?;
    }
    Ok(book)
}

/// The same, but the first stop closes at minute 8.
pub(crate) fn early_close() -> Result<Book, OutOfRange> {
    let mut book = two_visits(10)?;
    book.put_visit(1, visit(0, 8, 2, false))?;
    Ok(book)
}

/// Four visits, open all day, each a minute and 2 mils from the others.
pub(crate) fn four_visits() -> Result<Book, OutOfRange> {
    let fleet = Fleet {
        vans: 2,
        capacity: 10,
        battery: 40,
        most: 4,
    };
    let mut book = Book::new(4, fleet)?;
    for stop in 1..5 {
        book.put_visit(stop, visit(0, 1440, 1, false))?;
    }
    for from in 0..5 {
        for to in 0..5 {
            if from != to {
                book.put_leg(
                    from,
                    to,
                    Leg {
                        cost: 2,
                        minutes: 1,
                    },
                )?;
            }
        }
    }
    Ok(book)
}
