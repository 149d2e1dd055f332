// How many configurations a chunk of an enumeration holds, and a sampling counts.
ghost use Rattle.std.specs.Prelude.{◌≡◌, ◌-◌, ◌*◌, ◌≤◌, min};
ghost use Rattle.limits.specs.Limits.{most_samples};
ghost use Rattle.transfer_matrix.specs.Totals.{sampled_count};

// A chunk holds 1,024 configurations.
const CHUNK: usize = 1024;

// Chunks hold 1,024 configurations, or all if fewer.
pub fn chunk_size(all: usize) -> usize
    ensures { result ≡ min 1024 all }
{
    CHUNK.min(all)
}

// How many configurations there are: chunks times samples per chunk, 0 where there is no chunk.
pub fn sampled_count(from: u64, to: u64, samples: usize) -> usize
    requires { (to - from) * samples ≤ most_samples }
    ensures { result ≡ sampled_count from to samples }
{
    if to <= from {
        return 0;
    }
    (to - from) as usize * samples
}
