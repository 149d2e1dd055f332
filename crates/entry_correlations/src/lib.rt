// The pair correlations of one configuration: a job is checked, planned, swept and answered.
#![tactic(auto)]

mod entry;
mod rescaling;

pub use entry::correlations;
pub use rescaling::is_elementwise;

// How often a sweep is rescaled: every fourth step, or every step.
#[derive(Clone, Copy, Debug, PartialEq, Eq)]
pub enum Manner {
    Block,
    PerElement,
}
