//! The parts of a book.

/// What all routes of a book share.
#[derive(Clone, Copy, Default, PartialEq, Eq, Debug)]
pub struct Fleet {
    /// 1 to 60
    pub vans: u8,
    /// the load that a van carries, 0 to 65,535
    pub capacity: u16,
    /// the charge of a full battery, in minutes of driving, 1 to 1,440
    pub battery: u16,
    /// the most stops that a van with a battery makes, 1 to 100
    pub most: u8,
}

/// A stop: a window of minutes for the arrival, its load, and whether it has a charger.
#[derive(Clone, Copy, Default, PartialEq, Eq, Debug)]
pub struct Visit {
    /// at most `closes`
    pub opens: u16,
    /// at most 1,440
    pub closes: u16,
    /// 0 to 65,535
    pub load: u16,
    pub charger: bool,
}

/// The way from one place to another.
#[derive(Clone, Copy, Default, PartialEq, Eq, Debug)]
pub struct Leg {
    /// in mils, 0 to 2^30
    pub cost: u32,
    /// 1 to 1,440, and 0 from a place to itself
    pub minutes: u16,
}
