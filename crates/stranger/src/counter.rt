//! A bottom that only counts.
ghost use Rattle.std.specs.Prelude.{◌≡◌, ◌≤◌, min};

use stops::MOST_STOPS;

/// Stops, of which a route may visit at most so many.
#[derive(Drop)]
pub struct Counter {
    pub(crate) stops: usize,
    pub(crate) most: u8,
    ghost few: { stops ≤ 60 },
    // a law does not know the width of a field
    ghost short: { most ≤ 255 },
}

impl Counter {
    /// A round of `stops` stops, held at 60, whose routes visit at most `most`.
    pub fn new(stops: usize, most: u8) -> Counter
        ensures { (result.stops ≡ min stops 60) × (result.most ≡ most) }
    {
        Counter {
            stops: stops.min(MOST_STOPS),
            most,
        }
    }
}
