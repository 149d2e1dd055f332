// What the steps of a sweep share, over one lent room of places that hold one vector each: the tables of a step, the pattern by which an
// index reads them, and a run of one number. Place p of a room with window w has the 2 ^ w numbers from p * 2 ^ w on.
#![tactic(auto)]

mod entries;
mod pattern;
mod tables;

pub use entries::fill;
pub use pattern::{pattern_of, pow2};
pub use tables::{fill_tables, left_factor};
