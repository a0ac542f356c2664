//! The lines that follow a deck, the pile and the calls: their definitions, in `specs/`.
#![tactic(auto)]

mod pile;

pub use pile::Bottom;
