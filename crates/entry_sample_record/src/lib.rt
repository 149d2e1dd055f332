// A run of samples written as a record.
#![tactic(auto)]

mod entry;

pub use entry::sample_record;
