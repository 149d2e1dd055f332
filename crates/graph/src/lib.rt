// What follows from the kept edges of a graph.
#![tactic(auto)]

mod graph;

pub use graph::{components, cyclomatic, distance, n_components, spanning_forest, window};
