// The checks of a call for totals that 1 to 8 pass: its configurations, and what a caller lends for the sweeps.
ghost use Rattle.std.specs.Prelude.{◌≡◌, ◌≤◌};
ghost use Rattle.limits.specs.Limits.{most_vertices, most_edges, most_betas, most_window};
ghost use Rattle.transfer_matrix.specs.Room.{arranged};
ghost use Rattle.refusals.specs.Request.{lent, signed_factors, too_many_chunks};
ghost use Rattle.refusals.specs.AcceptedTotals.{misfits, enumeration_lists, sampling_lists};
ghost use Rattle.refusals.specs.Numbers.{refused};
ghost use Rattle.pair_places.specs.Places.{Pairs};

use crate::factors::bad_factors;
use crate::lists::check_buffers;
use limits::{Caller, SAMPLES, TESTER_FREE, over_limit};
use refusals::Refusal;

// 11. End above start, and chunks times samples per chunk exceed 2^32. The product may not fit into a word, so a quotient is compared.
pub fn too_many_chunks(start: usize, end: usize, samples: usize) -> bool
    ensures { result ≡ too_many_chunks start end samples }
{
    if end <= start {
        return false;
    }
    if samples == 0 {
        return false;
    }
    SAMPLES / samples < end - start
}

// 12. A result buffer isn't of its exact length: two of them, one being the same twice.
pub fn misfit(wanted: usize, squares: usize, fourths: usize) -> bool
    ensures { result ≡ misfits wanted squares fourths }
{
    if squares != wanted {
        return true;
    }
    fourths != wanted
}

// Checks 9, 22, 10, 12 and 13 of a caller's call that goes through the configurations of so many free edges, where so many are the most.
pub fn check_enumeration(
    caller: Caller,
    less: bool,
    n: usize,
    w: usize,
    edges: usize,
    us: &[usize],
    vs: &[usize],
    betas: usize,
    factors: &[f64],
    free: usize,
    most: usize,
    wanted: usize,
    squares: usize,
    fourths: usize,
    work: usize,
) -> Result<(), Refusal>
    requires { Pairs us.now vs.now n × (n ≤ most_vertices) × (w ≤ most_window) × (edges ≤ most_edges) × (betas ≤ most_betas) }
    ensures { refused result ≡ enumeration_lists lent caller (arranged less) n w edges us.now vs.now factors.now (signed_factors betas edges) free most
        (misfits wanted squares fourths) work }
{
    if most < free {
        return Err(Refusal::FreeEdges);
    }
    if over_limit(caller, TESTER_FREE, free) {
        return Err(Refusal::TesterLimit);
    }
    if bad_factors(factors, 2 * (betas * edges)) {
        return Err(Refusal::Factors);
    }
    let misfit = misfit(wanted, squares, fourths);
    check_buffers(less, n, w, edges, us, vs, misfit, work)
}

// Checks 10 to 13 of a call that draws chunks of samples.
pub fn check_sampling(
    less: bool,
    n: usize,
    w: usize,
    edges: usize,
    us: &[usize],
    vs: &[usize],
    betas: usize,
    factors: &[f64],
    start: usize,
    end: usize,
    samples: usize,
    wanted: usize,
    squares: usize,
    fourths: usize,
    work: usize,
) -> Result<(), Refusal>
    requires { Pairs us.now vs.now n × (n ≤ most_vertices) × (w ≤ most_window) × (edges ≤ most_edges) × (betas ≤ most_betas) }
    ensures { refused result ≡ sampling_lists lent (arranged less) n w edges us.now vs.now factors.now (signed_factors betas edges) start end samples
        (misfits wanted squares fourths) work }
{
    if bad_factors(factors, 2 * (betas * edges)) {
        return Err(Refusal::Factors);
    }
    if too_many_chunks(start, end, samples) {
        return Err(Refusal::Samples);
    }
    let misfit = misfit(wanted, squares, fourths);
    check_buffers(less, n, w, edges, us, vs, misfit, work)
}
