//! The table of duals.
ghost use Rattle.std.specs.Prelude.{◌≤◌};
ghost use Rattle.stops.specs.Stops.{most_stops};
ghost use Rattle.duals.specs.Duals.{DualsInRange};

use stops::MOST_PLACES;

/// The duals of a bottom: what each stop is worth, in mils, from -2^30 to 2^30.
#[derive(Drop)]
pub struct Duals {
    pub(crate) stops: usize,
    // all places that a stop can have: the definitions give a table of 61, whatever the number of stops
    pub(crate) amounts: [i64; MOST_PLACES],
    ghost few: { stops ≤ most_stops },
    ghost ranged: { DualsInRange amounts },
}
