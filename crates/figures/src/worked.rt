//! The worked figures.
/// What the definitions give on the small examples of `specs/Figures.antt`.
#[derive(Clone, Copy)]
pub struct WorkedFigures {
    /// the minute of an arrival in an open window
    pub arrives: u16,
    /// the minute after a wait for the window
    pub waits: u16,
    /// the minute of an arrival at the very close
    pub in_time: u16,
    /// the minute that is too late
    pub late: u32,
    /// a load that just passes
    pub full: u16,
    /// a load over the capacity
    pub over: u32,
    /// the word of a memory from which a stop fell
    pub forgets: u64,
    /// the word of a memory that kept it
    pub remembers: u64,
    /// what a cut charges
    pub penalty: u32,
    /// the charge that is left after a leg
    pub used_up: u16,
    /// the charge at a charger
    pub filled: u16,
    /// the minutes of a leg that is too far
    pub too_far: u16,
}
