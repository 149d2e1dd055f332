// The betas of a house call one by one: the factors that the table has for a beta's couplings, and what is known of a job of one beta.
#![tactic(auto)]

mod factors;

pub use factors::{FACTORS, lay_beta};
