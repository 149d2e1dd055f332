// How many configurations a chunk of an enumeration holds, and a sampling counts.
#![tactic(auto)]

mod counts;
mod powers;

pub use counts::{chunk_size, sampled_count};
pub use powers::{add_powers, add_sums};
