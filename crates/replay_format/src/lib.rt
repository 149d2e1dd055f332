// Lists of stored answers, as the replay programs read them: a row of 64-bit words, little-endian, a double as its bits.
#![tactic(auto)]

mod answers;
mod files;
mod hash;
mod lists;
mod memory;
mod tally;
mod words;

pub use answers::answer_word;
pub use files::read_file;
pub use hash::{OFFSET, mix, mix_doubles, mix_number, mix_numbers};
pub use lists::{EdgeLists, TwoLists, edge_lists, load_edges, two_lists};
pub use little_endian::{bits_of, double_of};
pub use memory::{are_cleared, fill};
pub use tally::{
    Counted, NUMBERS, Progress, Replayed, advance, begin, count, finish, print_counted,
    print_number, print_tally, report, report_records,
};
pub use words::{are_stored, at, length_at, load_doubles, load_numbers, number_at, word};
