//! Rounds made up by a small generator, the same ones every time.
ghost use Rattle.std.specs.Prelude.{◌≤◌};

use book::{Book, Fleet, Leg, OutOfRange, Visit};

/// A linear congruential generator: x becomes 1,664,525 x + 1,013,904,223 modulo 2^32, and the upper
/// half of its bits is the number drawn.
#[derive(Drop)]
pub(crate) struct Draws {
    seed: u32,
}

impl Draws {
    pub(crate) fn new(seed: u32) -> Draws {
        Draws { seed }
    }

    /// A number from 0 to `below` less one; 0 if `below` is 0.
    pub(crate) fn next(&mut self, below: u32) -> u32
        ensures { result ≤ below }
    {
        self.seed = self.seed.wrapping_mul(1664525).wrapping_add(1013904223);
        if below == 0 {
            return 0;
        }
        (self.seed >> 16) % below
    }
}

/// A place on a square of 100 by 100.
#[derive(Clone, Copy)]
pub(crate) struct Point {
    pub(crate) x: u32,
    pub(crate) y: u32,
}

/// How far apart two places are, along the streets of a grid.
pub(crate) fn distance(a: Point, b: Point) -> u32 {
    a.x.abs_diff(b.x).saturating_add(a.y.abs_diff(b.y))
}

/// The depot in the middle, and the stops anywhere.
pub(crate) fn points(draws: &mut Draws) -> [Point; 61] {
    let mut points = [Point { x: 50, y: 50 }; 61];
    for point in &mut points[1..] {
        *point = Point {
            x: draws.next(100),
            y: draws.next(100),
        };
    }
    points
}

// A window of two hours that opens between minute 60 and minute 1,080, and a load of 5 to 24.
fn visit(draws: &mut Draws) -> Visit {
    let opens = (draws.next(1020) + 60) as u16;
    let load = (draws.next(20) + 5) as u16;
    Visit {
        opens,
        closes: opens + 120,
        load,
        charger: false,
    }
}

// A leg costs ten mils for each unit of distance and takes as many minutes as that, and ten more.
fn leg(a: Point, b: Point) -> Leg {
    let length = distance(a, b).min(1000);
    Leg {
        cost: length * 10,
        minutes: (length + 10) as u16,
    }
}

/// A round over these points, the depot first: vans that carry 100, windows of two hours, legs by
/// distance.
pub(crate) fn round(points: &[Point], draws: &mut Draws) -> Result<Book, OutOfRange> {
    let fleet = Fleet {
        vans: 10,
        capacity: 100,
        battery: 1440,
        most: 100,
    };
    let stops = points.len().saturating_sub(1);
    let mut book = Book::new(stops, fleet)?;
    // 60 visits are drawn for every number of stops, so that the later draws are the same
    for stop in 1..61 {
        let visit = visit(draws);
        if stop <= stops {
            book.put_visit(stop, visit)?;
        }
    }
    for (from, a) in points.iter().enumerate() {
        for (to, b) in points.iter().enumerate() {
            if from != to {
                book.put_leg(from, to, leg(*a, *b))?;
            }
        }
    }
    Ok(book)
}
