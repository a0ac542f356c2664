//! Where a van with a battery stands along a route.

/// The charge with which a van stands at a place, and the stops that it has made.
#[derive(Clone, Copy, PartialEq, Eq, Debug)]
pub struct TownState {
    pub charge: u16,
    pub made: u8,
}
