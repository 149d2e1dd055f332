// One row, written to its place.
ghost use Rattle.std.specs.Prelude.{◌+◌, ◌≤◌, length};
ghost use Rattle.job_sheet_put.specs.Behind.{Appended};
ghost use Rattle.run_record.specs.Records.{row_bytes};

use little_endian::{bits_of, put_word};

pub fn put_row(
    bytes: &mut [u8],
    place: usize,
    chunk: u64,
    beta: usize,
    pair: usize,
    squares: f64,
    fourths: f64,
)
    requires { place + 28 ≤ length bytes.old }
    ensures { Appended place (row_bytes chunk beta pair squares fourths) bytes.old bytes.new }
{
    bytes[place] = 18;
    put_word(bytes, place + 1, 8, chunk);
    put_word(bytes, place + 9, 1, beta as u64);
    put_word(bytes, place + 10, 2, pair as u64);
    put_word(bytes, place + 12, 8, bits_of(squares));
    put_word(bytes, place + 20, 8, bits_of(fourths));
}
