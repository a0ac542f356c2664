//! Tiers written by somebody outside: a bottom that only counts, and a layer that only passes on.
#![tactic(auto)]

mod counter;
mod counts;
mod through;

pub use counter::Counter;
pub use counts::Count;
pub use through::{Passed, Through};

#[cfg(test)]
mod tests;
