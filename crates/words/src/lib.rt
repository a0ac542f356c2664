//! The words of the forms: of decks, and of the calls that follow a deck.
#![tactic(auto)]

mod spellings;
mod vocabulary;

pub use spellings::{look_up, spelling, spells};
pub use vocabulary::Keyword;
