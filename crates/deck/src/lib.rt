//! Reading a deck into a book. A deck is the text of a book: one form a line, nested in brackets.
#![tactic(auto, unfolding(text::specs::Readers::and_then, text::specs::Readers::give))]

mod first_line;
mod items;
mod leg_lines;
mod reader;
mod reading;
mod stop_lines;

pub use reader::read_deck;
