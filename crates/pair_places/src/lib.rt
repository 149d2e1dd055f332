// Pairs and the places of the vectors that a call keeps for them.
#![tactic(auto)]

mod kept;
mod pairs;

pub use kept::{count_places, plan_places};
pub use pairs::{earlier, is_propagated, later, waits};
