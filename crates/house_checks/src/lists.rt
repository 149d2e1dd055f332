// The checks of what a house call of one configuration lends.
ghost use Rattle.std.specs.Prelude.{◌≡◌, ◌≤◌};
ghost use Rattle.limits.specs.Limits.{most_vertices, most_edges, most_window};
ghost use Rattle.transfer_matrix.specs.Room.{arranged};
ghost use Rattle.refusals.specs.Request.{house};
ghost use Rattle.refusals.specs.AcceptedJob.{lists_refusal};
ghost use Rattle.refusals.specs.Numbers.{refused};
ghost use Rattle.pair_places.specs.Places.{Pairs};

use crate::couplings::bad_couplings;
use buffer_checks::check_buffers;
use refusals::Refusal;

// Checks 23, 12 and 13 of a job that 1 to 8 pass: one coupling for each kept edge, one result for each pair, and the room.
pub fn check_house_lists(
    less: bool,
    n: usize,
    w: usize,
    edges: usize,
    us: &[usize],
    vs: &[usize],
    couplings: &[f64],
    results: usize,
    work: usize,
) -> Result<(), Refusal>
    requires { Pairs us.now vs.now n × (n ≤ most_vertices) × (w ≤ most_window) × (edges ≤ most_edges) }
    ensures { refused result ≡ lists_refusal house (arranged less) n w edges us.now vs.now couplings.now results work }
{
    if bad_couplings(couplings, edges) {
        return Err(Refusal::Couplings);
    }
    check_buffers(less, n, w, edges, us, vs, results != us.len(), work)
}
