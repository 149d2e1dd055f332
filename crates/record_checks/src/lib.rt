// The checks of a call that writes a run record, behind those of its job: 10 or 23, 11, 26, 12 and 13.
#![tactic(auto)]

mod house;
mod lists;
mod range;

pub use house::check_house_recording;
pub use lists::check_recording;
pub use range::{other_length, unwritable};
