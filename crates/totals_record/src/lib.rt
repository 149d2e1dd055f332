// A call that writes a run record and passed its checks: chunk after chunk, each with the totals that it has alone.
#![tactic(auto)]

mod bytes;
mod chunks;
mod job;

pub use bytes::clear_bytes;
pub use job::record_job;
