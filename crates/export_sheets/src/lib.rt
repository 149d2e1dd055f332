// Job sheets over C. A slice is a pointer and the number of its elements; an answer is the refusal's number, 0 for accepted, and a value
// goes out through a reference. A double that is read goes out by its bits, so that a NaN keeps its own.
#![tactic(auto)]

mod jobs;
mod records;
mod writes;
