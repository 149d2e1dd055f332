// The totals of all configurations, with house factors.
#![tactic(auto)]

mod entry;

pub use entry::house_exhaustive;
