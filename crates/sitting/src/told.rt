//! Calls as data, and their answers.
use crate::refusal::CallRefusal;
use price::Priced;
use stops::StopSet;

/// A call on a sitting.
#[derive(Clone, Copy)]
pub enum Call {
    Set {
        tier: usize,
        index: usize,
        amount: i64,
    },
    Tighten {
        tier: usize,
        index: usize,
        members: StopSet,
        amount: i64,
    },
    /// a price with so many places for labels, and a row of so many numbers
    Price {
        places: usize,
        row: usize,
    },
}

/// What a call did that was not refused.
#[derive(Drop)]
pub enum Done {
    /// a set or tighten was taken
    Taken,
    /// a price, with its route
    Priced(Priced<Vec<usize>>),
}

/// What a call answers.
pub type Answer = Result<Done, CallRefusal>;
