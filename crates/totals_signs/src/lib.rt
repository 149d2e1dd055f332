// The signs of a configuration's kept edges: a mark is minus.
#![tactic(auto)]

mod drawn;
mod factors;
mod numbered;

pub use drawn::sampled_signs;
pub use factors::lay_signed;
pub use numbered::enumerated_signs;
