// The standard pair set of a strip, with its labels.
#![tactic(auto)]

mod standard;

pub use standard::pairs;
