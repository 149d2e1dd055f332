// The totals of all configurations.
#![tactic(auto)]

mod entry;

pub use entry::exhaustive;
