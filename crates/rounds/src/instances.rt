//! The instances that are priced.
use book::{Book, Fleet, Leg, OutOfRange, Visit};

// Stops that are open from 0 to so late each, without loads, and legs by from, to, cost and minutes;
// two vans.
fn instance(closes: &[u16], legs: &[(usize, usize, u32, u16)]) -> Result<Book, OutOfRange> {
    let fleet = Fleet {
        vans: 2,
        capacity: 99,
        battery: 40,
        most: 4,
    };
    let mut book = Book::new(closes.len(), fleet)?;
    for (i, closes) in closes.iter().enumerate() {
        let visit = Visit {
            opens: 0,
            closes: *closes,
            load: 0,
            charger: false,
        };
        book.put_visit(i + 1, visit)?;
    }
    for &(from, to, cost, minutes) in legs {
        book.put_leg(from, to, Leg { cost, minutes })?;
    }
    Ok(book)
}

/// Two visits: 10 mils and 5 minutes to the first, 12 and 6 to the second, 4 and 3 between them.
pub(crate) fn two_visits() -> Result<Book, OutOfRange> {
    instance(
        &[10, 20],
        &[
            (0, 1, 10, 5),
            (0, 2, 12, 6),
            (1, 0, 10, 5),
            (1, 2, 4, 3),
            (2, 0, 12, 6),
            (2, 1, 4, 3),
        ],
    )
}

/// Three visits whose cheapest way to stop 2 is not the start of the cheapest route.
pub(crate) fn three_visits() -> Result<Book, OutOfRange> {
    instance(
        &[4, 7, 8],
        &[
            (0, 1, 3, 1),
            (0, 2, 4, 1),
            (0, 3, 1, 1),
            (1, 0, 3, 1),
            (1, 2, 0, 1),
            (1, 3, 5, 1),
            (2, 0, 3, 1),
            (2, 1, 2, 1),
            (2, 3, 4, 1),
            (3, 0, 3, 1),
            (3, 1, 0, 1),
            (3, 2, 2, 1),
        ],
    )
}

/// Two visits, where the dear way to stop 2 waits when the cheap one strikes it.
pub(crate) fn struck_visits() -> Result<Book, OutOfRange> {
    instance(
        &[20, 20],
        &[
            (0, 1, 1, 1),
            (0, 2, 50, 10),
            (1, 0, 1, 1),
            (1, 2, 1, 1),
            (2, 0, 1, 1),
            (2, 1, 1, 1),
        ],
    )
}

/// Two visits, open all day, a minute and nothing from each other.
pub(crate) fn all_day() -> Result<Book, OutOfRange> {
    instance(&[1440, 1440], &[])
}
