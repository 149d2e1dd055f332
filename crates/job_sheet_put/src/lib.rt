// The records of a job, written one behind another to the front of a buffer.
#![tactic(auto)]

mod record;
mod rows;
mod sheet;

pub use sheet::put_sheet;
