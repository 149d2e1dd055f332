// What the entries of a call for totals share: its jobs, what it answers, how long its lists are, and how they are cleared.
#![tactic(auto)]

mod settle;

pub use limits::{EDGES, PAIRS, PLAN, SUMS};
pub use settle::clear_unsound;
