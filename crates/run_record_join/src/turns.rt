// Two records that join, the earlier first.
ghost use Rattle.std.specs.Prelude.{◌≡◌, ◌+◌, ◌≤◌, length, drop};
ghost use Rattle.list_laws.specs.Part.{put};
ghost use Rattle.refusals.specs.Numbers.{refused};
ghost use Rattle.refusals.specs.Answers.{left};
ghost use Rattle.run_record_join.specs.Joining.{in_turn};
ghost use Rattle.run_record_join.specs.Turns.{Turns, limits_of, written};

use buffer_checks::too_many_chunks;
use little_endian::put_word;
use refusals::Refusal;
use run_record::head_of;

// The bytes of `source` behind its first `from`, to `target` from `at` on.
fn copy_behind(source: &[u8], from: usize, target: &mut [u8], at: usize)
    requires { (from ≤ length source.now) × (at + length source.now ≤ length target.old + from) }
    ensures { target.new ≡ put target.old at (drop from source.now) }
{
    let count = source.len() - from;
    for i in 0..count {
        target[at + i] = source[from + i];
    }
}

// Writes the earlier record with the later one's end, then the rows of the later one.
fn write_both(earlier: &[u8], later: &[u8], end: u64, joined: &mut [u8])
    requires { (32 ≤ length earlier.now) × (32 ≤ length later.now) × (length joined.old + 32 ≡ length earlier.now + length later.now) }
    ensures { joined.new ≡ written earlier.now later.now end joined.old }
{
    copy_behind(earlier, 0, joined, 0);
    put_word(joined, 17, 8, end);
    copy_behind(later, 32, joined, earlier.len());
}

// 11, then 12; the joined record's length is taken as a difference, for a sum may not fit into a word.
pub fn join_in_turn(earlier: &[u8], later: &[u8], joined: &mut [u8]) -> Result<(), Refusal>
    requires { Turns earlier.now later.now }
    ensures value { refused result ≡ limits_of earlier.now later.now (length joined.old) }
    ensures joined_after { joined.new ≡ left (refused result) (in_turn earlier.now later.now) joined.old }
{
    let g = head_of(earlier);
    let h = head_of(later);
    let end = h.end;
    if too_many_chunks(g.start as usize, end as usize, g.samples) {
        return Err(Refusal::Samples);
    }
    if joined.len() < earlier.len() {
        return Err(Refusal::Buffer);
    }
    if joined.len() - earlier.len() != later.len() - 32 {
        return Err(Refusal::Buffer);
    }
    write_both(earlier, later, end, joined);
    Ok(())
}
