// The checks in their order: of a job that 1 to 8 pass.
ghost use Rattle.std.specs.Prelude.{◌≡◌, ◌≤◌};
ghost use Rattle.limits.specs.Limits.{most_vertices, most_edges, most_betas, most_pairs, most_window};
ghost use Rattle.transfer_matrix.specs.Room.{arranged};
ghost use Rattle.refusals.specs.Request.{lent, signed_factors};
ghost use Rattle.refusals.specs.Numbers.{refused};
ghost use Rattle.pair_places.specs.Places.{Pairs};
ghost use Rattle.record_checks.specs.Recording.{other_length, recording_lists};

use crate::range::{other_length, unwritable};
use buffer_checks::{bad_factors, check_buffers, too_many_chunks};
use refusals::Refusal;
use run_record::Head;

// Checks 10, 11, 26, 12 and 13, of a record of so many bytes.
pub fn check_recording(
    less: bool,
    n: usize,
    w: usize,
    edges: usize,
    us: &[usize],
    vs: &[usize],
    factors: &[f64],
    head: Head,
    size: usize,
    work: usize,
) -> Result<(), Refusal>
    requires { Pairs us.now vs.now n × (n ≤ most_vertices) × (w ≤ most_window) × (edges ≤ most_edges) × (head.betas ≤ most_betas) × (head.pairs ≤ most_pairs) }
    ensures { refused result ≡ recording_lists lent (arranged less) n w edges us.now vs.now factors.now (signed_factors head.betas edges)
        head.start head.end head.samples (other_length head size) work }
{
    if bad_factors(factors, 2 * (head.betas * edges)) {
        return Err(Refusal::Factors);
    }
    if too_many_chunks(head.start as usize, head.end as usize, head.samples) {
        return Err(Refusal::Samples);
    }
    if unwritable(head) {
        return Err(Refusal::Record);
    }
    let misfit = other_length(head, size);
    check_buffers(less, n, w, edges, us, vs, misfit, work)
}
