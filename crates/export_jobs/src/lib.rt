// A job over C: its room, its correlations, and how far these can be from the exact ones. A slice is a pointer and the number of its elements; an answer is the refusal's
// number, 0 for accepted, and a value goes out through a reference.
#![tactic(auto)]

mod accuracies;
mod correlations;
mod pair_records;
mod previews;
mod room;
