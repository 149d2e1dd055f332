// Which edges of a graph are kept, and its window.
#![tactic(auto)]

pub mod keep;
mod reach;

pub use reach::window_of;
