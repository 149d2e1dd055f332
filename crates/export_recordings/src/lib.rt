// Runs of samples written as records, over C. A slice is a pointer and the number of its elements; the answer is the refusal's number, 0 for accepted.
#![tactic(auto)]

mod house;
mod recordings;
