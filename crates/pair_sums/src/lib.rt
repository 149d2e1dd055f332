// What is taken of vectors of which a room's places hold the lower halves: the largest entry, and the sums of a pair.
#![tactic(auto)]

mod alone;
mod stored;
mod sums;

pub use alone::half_sums;
pub use stored::{half_largest_at, half_stored, is_due};
pub use sums::{Both, Source, Sums, half_sums_of_two};
