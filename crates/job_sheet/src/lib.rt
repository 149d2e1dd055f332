// Job sheets as bytes, little-endian, each record's kind a byte: what stands at a place of a sheet, and how many records a whole sheet has.
#![tactic(auto)]

mod counts;
mod record;

pub use counts::{Counts, count_records};
pub use record::{Record, check_record, number_at, read_record, record_length};
