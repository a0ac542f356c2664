//! The limits of a deck's numbers.
use stops::MOST_PLACES;

pub const MOST_VANS: u8 = 60;

pub const MOST_BATTERY: u16 = 1440;

/// Of the number of stops that a van with a battery makes.
pub const MOST_MADE: u8 = 100;

/// Of a window.
pub const LAST_MINUTE: u16 = 1440;

/// Of a leg.
pub const MOST_MINUTES: u16 = 1440;

/// Of a leg, in mils.
pub const MOST_COST: u32 = 1 << 30;

/// Of the leg table: a row for each place, with a leg to each place.
pub const TABLE_LENGTH: usize = MOST_PLACES * MOST_PLACES;
