// Strips: their sides, which calls refuse, their boundary and their vertices.
#![tactic(auto)]

mod kinds;
mod refuse;
mod strip;
mod vertices;

pub use kinds::{Kind, Word, six};
pub use refuse::{bad_sides, odd_cylinder};
pub use strip::{Strip, vertex_at, vertex_count};
