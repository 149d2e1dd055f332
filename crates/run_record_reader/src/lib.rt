// Which bytes are a run record.
#![tactic(auto)]

ghost use Rattle.std.specs.Prelude.{◌≡◌, not, ◌+◌, ◌*◌, ◌≤◌, eqb};
ghost use Rattle.run_record.specs.Reading.{bad_head, bad_record};

use buffer_checks::too_many_chunks;
use limits::{BETAS, PAIRS};
use little_endian::word_at;
use run_record::{Head, head_of};

mod rows;

use rows::bad_chunks;

fn bad_head(h: Head) -> bool
    ensures { result ≡ bad_head h }
{
    if BETAS < h.betas {
        return true;
    }
    if PAIRS < h.pairs {
        return true;
    }
    if h.end < h.start {
        return true;
    }
    too_many_chunks(h.start as usize, h.end as usize, h.samples)
}

// Returns whether so many bytes are not a head and the rows of so many chunks. The product may not fit into a word, so a quotient is compared.
fn bad_length(bytes: usize, chunks: usize, per: usize) -> bool
    requires { (32 ≤ bytes) × (per ≤ 16384) }
    ensures { result ≡ not (eqb bytes (32 + 28 * (chunks * per))) }
{
    let rows = bytes - 32;
    if per == 0 {
        return rows != 0;
    }
    if rows / (28 * per) < chunks {
        return true;
    }
    rows != 28 * (chunks * per)
}

// 26: returns whether the bytes are exactly a run record. Rows are looked at only where there are some, so a head alone is told at once.
pub fn is_record(bytes: &[u8]) -> bool
    ensures { result ≡ not (bad_record bytes.now) }
{
    if bytes.len() < 32 {
        return false;
    }
    if word_at(bytes, 0, 1) != 17 {
        return false;
    }
    let h = head_of(bytes);
    if bad_head(h) {
        return false;
    }
    let betas = h.betas;
    let pairs = h.pairs;
    let chunks = (h.end - h.start) as usize;
    if bad_length(bytes.len(), chunks, betas * pairs) {
        return false;
    }
    if bytes.len() == 32 {
        return true;
    }
    !bad_chunks(bytes, h.start, h.samples, betas, pairs, chunks)
}
