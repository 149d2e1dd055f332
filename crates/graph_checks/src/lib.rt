// The checks of a graph, 1 to 5 and 21, with its pairs and betas.
#![tactic(auto)]

mod lists;
mod parallel;

pub use lists::{
    bad_edges, bad_lists, bad_sizes, bad_vertices, is_outside, magnitude_dropping, unordered_betas,
};
pub use parallel::joined_twice;
