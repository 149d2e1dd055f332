// Exact fractions of whole numbers, for proofs alone: specs/ has all of it.
#![tactic(auto)]
