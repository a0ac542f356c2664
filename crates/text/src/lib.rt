//! The tokens of a text: each is a part of that text, with the offset of its first byte.
#![tactic(auto)]

mod cursor;
mod digits;
mod fault;
mod runs;
mod scanning;
mod token;

pub use cursor::Cursor;
pub use fault::TextFault;
pub use token::{Mark, Token};
