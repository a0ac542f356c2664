//! The forms of a line: which token is due.
#![tactic(auto)]

mod due;
mod fault;
mod placed;

pub use due::{due_amount, due_mark, due_name, due_number, due_word, undue};
pub use fault::FormFault;
pub use placed::{Amount, Name, Numeral, Placed};
pub use text::Mark;
