// The pair correlations of one configuration, by couplings whose factors are the house table's.
#![tactic(auto)]

mod entry;

pub use entry::house_correlations;
