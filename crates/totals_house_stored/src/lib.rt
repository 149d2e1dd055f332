// The stored correlations of a house call, beta after beta, as its totals are made.
#![tactic(auto)]

mod stored;

pub use stored::store_house_job;
