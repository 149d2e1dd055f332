// Estimates from totals, and the square root, over C. A slice is a pointer and the number of its elements; an answer is the refusal's
// number, 0 for accepted, and a value goes out through a reference.
#![tactic(auto)]

mod complete;
mod means;
mod roots;
