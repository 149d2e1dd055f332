// Graphs, what is counted of them, and their couplings, over C. A slice is a pointer and the number of its elements; an answer is the refusal's
// number, 0 for accepted, and a value goes out through a reference.
#![tactic(auto)]

mod counts;
mod coupling;
mod distances;
mod graphs;
mod trees;
