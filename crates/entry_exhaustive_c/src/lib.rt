// The correlations of all configurations of a strip, stored.
#![tactic(auto)]

mod entry;
mod job;

pub use entry::{exhaustive_c, stored_count};
