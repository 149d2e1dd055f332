// The run of a planned job over its room.
#![tactic(auto)]

mod job;
mod planned;

pub use job::answer_job;
pub use planned::{clear, lay_factors, run};
