//! The third layer of reading: ranges and order. Numbers are in their ranges and in their order, and lines
//! follow one another in theirs.
#![tactic(auto)]

mod fault;
mod items;
mod lines;
mod natural;
mod numbers;

pub use fault::{BookFault, Layer};
pub use items::{open_item, open_nested};
pub use lines::{close_line, misplaced, open_line, open_numbered};
pub use natural::Natural;
pub use numbers::{due_in_order, due_within};
