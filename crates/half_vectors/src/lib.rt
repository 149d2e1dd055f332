// The laws of half vectors are in specs/. Of code they need the sign alone.
#![tactic(auto)]

mod negation;

pub use negation::negated_if;
