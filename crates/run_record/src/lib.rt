// Run records: a sampled run as bytes.
#![tactic(auto)]

ghost use Rattle.std.specs.Prelude.{◌≡◌, ◌≤◌, length};
ghost use Rattle.run_record.specs.Reading.{head_of};

use little_endian::word_at;

mod sums;

pub use sums::{bad_sums, double_at};

// What the head of a record says: the chunks from `start` up to, and without, `end`, with so many samples each, of a job with so many betas and
// pairs.
#[derive(Clone, Copy)]
pub struct Head {
    pub seed: u64,
    pub start: u64,
    pub end: u64,
    pub samples: usize,
    pub betas: usize,
    pub pairs: usize,
}

pub fn head_of(bytes: &[u8]) -> Head
    requires { 32 ≤ length bytes.now }
    ensures { result ≡ head_of bytes.now }
{
    Head {
        seed: word_at(bytes, 1, 8),
        start: word_at(bytes, 9, 8),
        end: word_at(bytes, 17, 8),
        samples: word_at(bytes, 25, 4) as usize,
        betas: word_at(bytes, 29, 1) as usize,
        pairs: word_at(bytes, 30, 2) as usize,
    }
}
