//! A bottom: a tier that stands by itself, made of a book, duals and the rules of its kind.
#![tactic(auto)]

mod bottom;
mod rules;

pub use bottom::Bottom;
pub use rules::Rules;
