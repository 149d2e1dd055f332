// A house call that writes a run record and passed its checks: chunk after chunk, each with the totals that it has alone.
#![tactic(auto)]

mod chunks;
mod job;

pub use job::record_house_job;
