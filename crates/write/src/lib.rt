//! Writing a book as its deck.
#![tactic(auto)]

mod first_line;
mod items;
mod leg_lines;
mod stop_lines;
mod writer;

pub use writer::write_deck;
