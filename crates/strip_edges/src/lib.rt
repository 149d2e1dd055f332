// The edges of a strip, site after site: how many there are, and their lists.
#![tactic(auto)]

mod listing;
mod raw;

pub use listing::{count_edges, too_short, write_edges};
pub use raw::raw_edges;
