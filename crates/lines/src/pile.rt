//! Which bottom the pile stands on.

/// The bottom that the pile's line names.
#[derive(Clone, Copy)]
pub enum Bottom {
    /// `round`
    OfRounds,
    /// `town`
    OfTowns,
}
