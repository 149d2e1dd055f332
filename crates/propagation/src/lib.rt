// The current propagated vector, and the pairs that are answered along its way.
#![tactic(auto)]

mod current;
mod together;

pub use current::{CurrentVector, propagate};
pub use together::{Pairing, direct_pairs, next_pairing};
