// The head of a record.
ghost use Rattle.std.specs.Prelude.{◌≤◌, length};
ghost use Rattle.job_sheet_put.specs.Behind.{Appended};
ghost use Rattle.run_record.specs.Records.{head_bytes};

use little_endian::put_word;
use run_record::Head;

// Writes the head to the front of a record.
pub fn put_head(bytes: &mut [u8], head: Head)
    requires { 32 ≤ length bytes.old }
    ensures { Appended 0 (head_bytes head) bytes.old bytes.new }
{
    bytes[0] = 17;
    put_word(bytes, 1, 8, head.seed);
    put_word(bytes, 9, 8, head.start);
    put_word(bytes, 17, 8, head.end);
    put_word(bytes, 25, 4, head.samples as u64);
    put_word(bytes, 29, 1, head.betas as u64);
    put_word(bytes, 30, 2, head.pairs as u64);
}
