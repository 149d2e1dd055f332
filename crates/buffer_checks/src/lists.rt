// The checks that read what a caller lends for the sweeps: factors, results and work memory.
ghost use Rattle.std.specs.Prelude.{◌≡◌, ◌≤◌};
ghost use Rattle.limits.specs.Limits.{most_vertices, most_edges, most_window};
ghost use Rattle.transfer_matrix.specs.Room.{arranged};
ghost use Rattle.refusals.specs.Request.{lent};
ghost use Rattle.refusals.specs.AcceptedJob.{buffers_refusal, lists_refusal};
ghost use Rattle.refusals.specs.Numbers.{refused};
ghost use Rattle.pair_places.specs.Places.{Pairs};

use crate::factors::bad_factors;
use plan_layout::room_needed;
use refusals::Refusal;

// Checks 12 and 13, of a job that 1 to 8 pass: whether a result buffer misfits is given.
pub fn check_buffers(
    less: bool,
    n: usize,
    w: usize,
    edges: usize,
    us: &[usize],
    vs: &[usize],
    misfit: bool,
    work: usize,
) -> Result<(), Refusal>
    requires { Pairs us.now vs.now n × (n ≤ most_vertices) × (w ≤ most_window) × (edges ≤ most_edges) }
    ensures { refused result ≡ buffers_refusal (arranged less) n w edges us.now vs.now misfit work }
{
    if misfit {
        return Err(Refusal::Buffer);
    }
    if work < room_needed(less, n, w, edges, us, vs) {
        return Err(Refusal::WorkMemory);
    }
    Ok(())
}

// Checks 10, 12 and 13 of such a job: one factor for each kept edge, one result for each pair, and the room.
pub fn check_lists(
    less: bool,
    n: usize,
    w: usize,
    edges: usize,
    us: &[usize],
    vs: &[usize],
    factors: &[f64],
    results: usize,
    work: usize,
) -> Result<(), Refusal>
    requires { Pairs us.now vs.now n × (n ≤ most_vertices) × (w ≤ most_window) × (edges ≤ most_edges) }
    ensures { refused result ≡ lists_refusal lent (arranged less) n w edges us.now vs.now factors.now results work }
{
    if bad_factors(factors, edges) {
        return Err(Refusal::Factors);
    }
    check_buffers(less, n, w, edges, us, vs, results != us.len(), work)
}
