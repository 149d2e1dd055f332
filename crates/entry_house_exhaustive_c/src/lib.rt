// The correlations of all configurations, stored, with house factors.
#![tactic(auto)]

mod entry;

pub use entry::house_exhaustive_c;
