// The checks of a job: which are refused, by which number, and what holds of one that none refuses.
#![tactic(auto)]

mod job;
mod work;

pub use job::{Job, check_dropping, check_job, check_with_betas};
pub use work::room;
