// The range of a run that is written, and how long its record is.
ghost use Rattle.std.specs.Prelude.{◌≡◌, ◌≤◌};
ghost use Rattle.limits.specs.Limits.{most_betas, most_pairs};
ghost use Rattle.refusals.specs.Request.{unwritable as unwritable_test};
ghost use Rattle.record_checks.specs.Recording.{other_length};

use limits::NAMED;
use run_record::Head;

// 26. The end is below the start, or there are more samples per chunk than a record can name.
pub fn unwritable(head: Head) -> bool
    ensures { result ≡ unwritable_test head.start head.end head.samples }
{
    if head.end < head.start {
        return true;
    }
    NAMED < head.samples
}

// 12. The record isn't of its exact length. That length may not fit into a word, so what lies behind the head is divided by the bytes of a chunk.
pub fn other_length(head: Head, size: usize) -> bool
    requires { (head.start ≤ head.end) × (head.betas ≤ most_betas) × (head.pairs ≤ most_pairs) }
    ensures { result ≡ other_length head size }
{
    if size < 32 {
        return true;
    }
    let rows = size - 32;
    let chunk = 28 * (head.betas * head.pairs);
    if chunk == 0 {
        return rows != 0;
    }
    if rows % chunk != 0 {
        return true;
    }
    rows / chunk != (head.end - head.start) as usize
}
