// The totals of drawn configurations, with house factors.
#![tactic(auto)]

mod entry;

pub use entry::house_sample;
