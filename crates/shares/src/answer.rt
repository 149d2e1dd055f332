// What a call for shares answers.
use euclid::Fraction;

// Parts of all entries, in lowest terms: those above zero, zero of either sign, below zero, and 1/2 or more in size.
#[derive(Drop)]
pub struct Shares {
    pub above: Fraction,
    pub zero: Fraction,
    pub below: Fraction,
    pub half: Fraction,
}
