// What the numbers of a call over C name: a kind, a strip and options.
#![tactic(auto)]

mod kinds;
mod options;

pub use kinds::{kind_numbered, number_of, strip_numbered};
pub use options::{Options, arrangement_in, options_numbered};
