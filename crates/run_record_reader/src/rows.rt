// The rows of a record: each is looked at, of every chunk, beta and pair.
ghost use Rattle.std.specs.Prelude.{◌≡◌, ◌+◌, ◌≤◌, ◌<◌, length};
ghost use Rattle.limits.specs.Limits.{most_named};
ghost use Rattle.run_record.specs.Reading.{bad_row_at, bad_beta, bad_chunk, bad_chunks};
ghost use Rattle.run_record_reader.specs.Lying.{Lying};

use little_endian::word_at;
use run_record::bad_sums;

fn bad_row(bytes: &[u8], place: usize, chunk: u64, beta: usize, pair: usize, samples: usize) -> bool
    requires { (place + 28 ≤ length bytes.now) × (samples ≤ most_named) }
    ensures { result ≡ bad_row_at bytes.now place chunk beta pair samples }
{
    if word_at(bytes, place, 1) != 18 {
        return true;
    }
    if word_at(bytes, place + 1, 8) != chunk {
        return true;
    }
    if word_at(bytes, place + 9, 1) != beta as u64 {
        return true;
    }
    if word_at(bytes, place + 10, 2) != pair as u64 {
        return true;
    }
    bad_sums(
        samples,
        word_at(bytes, place + 12, 8),
        word_at(bytes, place + 20, 8),
    )
}

// Of one chunk and beta.
fn bad_beta(
    bytes: &[u8],
    start: u64,
    samples: usize,
    betas: usize,
    pairs: usize,
    chunk: usize,
    beta: usize,
) -> bool
    requires { Lying bytes.now start samples betas pairs (chunk + 1) × (beta < betas) }
    ensures { result ≡ bad_beta bytes.now start samples betas pairs chunk beta }
{
    for p in 0..pairs {
        let place = 32 + 28 * (chunk * (betas * pairs) + (beta * pairs + p));
        if bad_row(bytes, place, start + chunk as u64, beta, p, samples) {
            return true;
        }
    }
    false
}

// Of one chunk.
fn bad_chunk(
    bytes: &[u8],
    start: u64,
    samples: usize,
    betas: usize,
    pairs: usize,
    chunk: usize,
) -> bool
    requires { Lying bytes.now start samples betas pairs (chunk + 1) }
    ensures { result ≡ bad_chunk bytes.now start samples betas pairs chunk }
{
    for b in 0..betas {
        if bad_beta(bytes, start, samples, betas, pairs, chunk, b) {
            return true;
        }
    }
    false
}

pub fn bad_chunks(
    bytes: &[u8],
    start: u64,
    samples: usize,
    betas: usize,
    pairs: usize,
    chunks: usize,
) -> bool
    requires { Lying bytes.now start samples betas pairs chunks }
    ensures { result ≡ bad_chunks bytes.now start samples betas pairs chunks }
{
    for c in 0..chunks {
        if bad_chunk(bytes, start, samples, betas, pairs, c) {
            return true;
        }
    }
    false
}
