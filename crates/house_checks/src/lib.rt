// The checks of a house call's couplings, and of what it lends besides.
#![tactic(auto)]

mod couplings;
mod lists;
mod totals;

pub use couplings::{bad_couplings, bad_products};
pub use lists::check_house_lists;
pub use totals::{check_house_enumeration, check_house_sampling};
