// What a call over C returns: its refusal's number, and the parts of its answer through references.
#![tactic(auto)]

mod estimates;
mod found;
mod graphs;
mod numbers;

pub use estimates::{tell_complete, tell_estimate};
pub use found::tell_found;
pub use graphs::tell_graph;
pub use numbers::tell_number;
