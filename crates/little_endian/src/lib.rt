// Numbers as bytes, the least byte first, of any width up to eight; a double by its bits, and back.
#![tactic(auto)]

mod doubles;
mod words;

pub use doubles::{bits_of, double_of};
pub use words::{put_word, word_at};
