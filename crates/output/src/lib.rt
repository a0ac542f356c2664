//! Writing into a lent slice: each printer gets the rest of it, from the filled length on.
#![tactic(auto)]

mod out;
mod printers;

pub use out::{Full, Out};
pub use printers::{print_bytes, print_number};
