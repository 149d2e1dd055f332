// A run record, written: its head, and the rows of a chunk at their place.
#![tactic(auto)]

mod head;
mod row;
mod rows;

pub use head::put_head;
pub use rows::put_chunk;
