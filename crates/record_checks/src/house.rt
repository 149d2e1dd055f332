// The same of a house call, which asks 23 in the place of 10.
ghost use Rattle.std.specs.Prelude.{◌≡◌, ◌*◌, ◌≤◌, length};
ghost use Rattle.limits.specs.Limits.{most_vertices, most_edges, most_betas, most_pairs, most_window};
ghost use Rattle.transfer_matrix.specs.Room.{arranged};
ghost use Rattle.refusals.specs.Couplings.{all_couplings};
ghost use Rattle.refusals.specs.Request.{house};
ghost use Rattle.refusals.specs.Numbers.{refused};
ghost use Rattle.pair_places.specs.Places.{Pairs};
ghost use Rattle.record_checks.specs.Recording.{other_length, recording_lists};

use crate::range::{other_length, unwritable};
use buffer_checks::{check_buffers, too_many_chunks};
use house_checks::bad_products;
use refusals::Refusal;
use run_record::Head;

// Checks 23, 11, 26, 12 and 13 of a house call.
pub fn check_house_recording(
    less: bool,
    n: usize,
    w: usize,
    us: &[usize],
    vs: &[usize],
    betas: &[f64],
    mag: &[f64],
    head: Head,
    size: usize,
    work: usize,
) -> Result<(), Refusal>
    requires { Pairs us.now vs.now n × (n ≤ most_vertices) × (w ≤ most_window) × (length mag.now ≤ most_edges) × (head.betas ≤ most_betas) × (head.pairs ≤ most_pairs) }
    ensures { refused result ≡ recording_lists house (arranged less) n w (length mag.now) us.now vs.now
        (all_couplings betas.now mag.now) (length betas.now * length mag.now)
        head.start head.end head.samples (other_length head size) work }
{
    if bad_products(betas, mag) {
        return Err(Refusal::Couplings);
    }
    if too_many_chunks(head.start as usize, head.end as usize, head.samples) {
        return Err(Refusal::Samples);
    }
    if unwritable(head) {
        return Err(Refusal::Record);
    }
    let misfit = other_length(head, size);
    check_buffers(less, n, w, mag.len(), us, vs, misfit, work)
}
