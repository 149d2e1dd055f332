// The diluted edge list of a strip, for callers.
#![tactic(auto)]

mod dilute;
mod refuse;

pub use dilute::diluted;
