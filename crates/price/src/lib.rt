//! Price: the route of lowest reduced cost over any pile, by dominance labelling in a lent store.
#![tactic(auto)]

mod answer;
mod choices;
mod covers;
mod desk;
mod label;
mod offers;
mod places;
mod pricing;
mod progress;
mod rows;
mod runs;
mod turns;

pub use answer::{Lowest, Priced};
pub use calls::{MOST_LABELS, MOST_VANS, PriceRefusal, ROW_LENGTH, refuse_early};
pub use label::{Label, Parent, Status};
pub use pricing::price;
pub use progress::Counts;
