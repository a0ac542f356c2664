//! Limited-memory subset-row cuts, as a layer over any tier.
//!
//! A cut has three stops, and a bit in the state. Each second visit to one of its stops, with the bit
//! kept by the cut's memory in between, is charged the cut's penalty.
#![tactic(auto)]

mod asks;
mod bits;
mod calls;
mod cut;
mod cuts_layer;
mod table;

pub use bits::Bits;
pub use cuts_layer::{Cuts, CutsState};
