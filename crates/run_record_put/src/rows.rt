// The rows of a beta in a chunk, and of a chunk.
ghost use Rattle.std.specs.Prelude.{◌≡◌, ◌+◌, ◌*◌, ◌≤◌, ◌<◌, length};
ghost use Rattle.job_sheet_put.specs.Behind.{Appended};
ghost use Rattle.run_record.specs.Records.{per_chunk, chunks_of, record_length};
ghost use Rattle.run_record.specs.Reading.{row_place};
ghost use Rattle.run_record_put.specs.Listed.{listed_beta, listed_chunk};

use crate::row::put_row;
use run_record::Head;

// The rows of beta b, one for each pair; the sums are those of its row in the lists, from `first` on.
fn put_beta(
    bytes: &mut [u8],
    place: usize,
    chunk: u64,
    b: usize,
    first: usize,
    pairs: usize,
    squares: &[f64],
    fourths: &[f64],
)
    requires { (first + pairs ≤ length squares.now) × (first + pairs ≤ length fourths.now) × (place + 28 * pairs ≤ length bytes.old) }
    ensures { Appended place (listed_beta chunk b first pairs squares.now fourths.now) bytes.old bytes.new }
{
    for p in 0..pairs {
        let k = first + p;
        put_row(bytes, place + 28 * p, chunk, b, p, squares[k], fourths[k]);
    }
}

// Writes the rows of chunk c of a record, counted from its start, with the sums of these lists.
pub fn put_chunk(bytes: &mut [u8], head: Head, c: u64, squares: &[f64], fourths: &[f64])
    requires { (length bytes.old ≡ record_length head) × (c < chunks_of head)
        × (length squares.now ≡ per_chunk head) × (length fourths.now ≡ per_chunk head) }
    ensures { Appended (row_place head c 0) (listed_chunk head c squares.now fourths.now) bytes.old bytes.new }
{
    let chunk = head.start + c;
    let place = 32 + 28 * (c as usize * squares.len());
    for b in 0..head.betas {
        let first = b * head.pairs;
        put_beta(
            bytes,
            place + 28 * first,
            chunk,
            b,
            first,
            head.pairs,
            squares,
            fourths,
        );
    }
}
