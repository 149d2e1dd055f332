// A run of samples written as a record with house factors.
#![tactic(auto)]

mod entry;

pub use entry::house_sample_record;
