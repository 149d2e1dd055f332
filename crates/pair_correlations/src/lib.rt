// The correlations of the pairs: of all, from a room that both sweeps have passed; and of one vertex's direct pairs, from its vectors.
#![tactic(auto)]

mod direct;
mod pair;
mod pairs;
mod write;

pub use direct::{VertexPlaces, answer_direct};
pub use pairs::answer_pairs;
