// The step at a vertex: what the plan says of its edges, with the factors that lie in the room.
#![tactic(auto)]

mod tables;
mod through;

pub use through::{backward_through, forward_through};
