// The checks of what a call lends, its factors, its buffers and its work memory, and of how many configurations it asks for.
#![tactic(auto)]

mod factors;
mod lists;
mod totals;

pub use factors::{bad_factors, passes};
pub use lists::{check_buffers, check_lists};
pub use totals::{check_enumeration, check_sampling, misfit, too_many_chunks};
