//! What a price answers.
use crate::progress::Counts;

/// The lowest reduced cost of a route, the route itself, and the floor.
#[derive(Clone, Copy, Drop)]
pub struct Lowest<R> {
    /// the lowest reduced cost, in mils
    pub cost: i64,
    /// its route: the stops themselves, or how many numbers of a row they are
    // a price answers a count, for it writes the route straight into the lent row
    pub route: R,
    /// the credit, and for each van the lesser of 0 and the lowest: no plan costs less
    pub floor: i64,
}

/// The answer of a price that is not refused.
#[derive(Clone, Copy, Drop)]
pub struct Priced<R> {
    /// none where no route is admitted
    pub lowest: Option<Lowest<R>>,
    pub counts: Counts,
}
