// The strips, their edges and pairs, and the generator, over C. A slice is a pointer and the number of its elements; an answer is the refusal's
// number, 0 for accepted, and a value goes out through a reference.
#![tactic(auto)]

mod edges;
mod generator;
mod kinds;
mod pairs;
mod strips;
