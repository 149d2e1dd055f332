// The totals of drawn configurations.
#![tactic(auto)]

mod entry;

pub use entry::sample;
