// The totals of a job, and the calls with house factors, over C. A slice is a pointer and the number of its elements; an answer is the refusal's
// number, 0 for accepted, and a value goes out through a reference.
#![tactic(auto)]

mod house;
mod total;
