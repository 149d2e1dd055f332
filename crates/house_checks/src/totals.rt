// The checks of a house call for totals that 1 to 8 pass: its configurations, its couplings, and what it lends for the sweeps.
ghost use Rattle.std.specs.Prelude.{◌≡◌, ◌*◌, ◌≤◌, length};
ghost use Rattle.limits.specs.Limits.{most_vertices, most_edges, most_window};
ghost use Rattle.transfer_matrix.specs.Room.{arranged};
ghost use Rattle.refusals.specs.Couplings.{all_couplings};
ghost use Rattle.refusals.specs.Request.{house};
ghost use Rattle.refusals.specs.AcceptedTotals.{misfits, enumeration_lists, sampling_lists};
ghost use Rattle.refusals.specs.Numbers.{refused};
ghost use Rattle.pair_places.specs.Places.{Pairs};

use crate::couplings::bad_products;
use buffer_checks::{check_buffers, misfit, too_many_chunks};
use limits::{Caller, TESTER_FREE, over_limit};
use refusals::Refusal;

// Checks 9, 22, 23, 12 and 13 of a caller's call that goes through the configurations of so many free edges, where so many are the most.
pub fn check_house_enumeration(
    caller: Caller,
    less: bool,
    n: usize,
    w: usize,
    us: &[usize],
    vs: &[usize],
    betas: &[f64],
    mag: &[f64],
    free: usize,
    most: usize,
    wanted: usize,
    squares: usize,
    fourths: usize,
    work: usize,
) -> Result<(), Refusal>
    requires { Pairs us.now vs.now n × (n ≤ most_vertices) × (w ≤ most_window) × (length mag.now ≤ most_edges) }
    ensures { refused result ≡ enumeration_lists house caller (arranged less) n w (length mag.now) us.now vs.now
        (all_couplings betas.now mag.now) (length betas.now * length mag.now) free most
        (misfits wanted squares fourths) work }
{
    if most < free {
        return Err(Refusal::FreeEdges);
    }
    if over_limit(caller, TESTER_FREE, free) {
        return Err(Refusal::TesterLimit);
    }
    if bad_products(betas, mag) {
        return Err(Refusal::Couplings);
    }
    let misfit = misfit(wanted, squares, fourths);
    check_buffers(less, n, w, mag.len(), us, vs, misfit, work)
}

// Checks 23, 11, 12 and 13 of a call that draws chunks of samples.
pub fn check_house_sampling(
    less: bool,
    n: usize,
    w: usize,
    us: &[usize],
    vs: &[usize],
    betas: &[f64],
    mag: &[f64],
    start: usize,
    end: usize,
    samples: usize,
    wanted: usize,
    squares: usize,
    fourths: usize,
    work: usize,
) -> Result<(), Refusal>
    requires { Pairs us.now vs.now n × (n ≤ most_vertices) × (w ≤ most_window) × (length mag.now ≤ most_edges) }
    ensures { refused result ≡ sampling_lists house (arranged less) n w (length mag.now) us.now vs.now
        (all_couplings betas.now mag.now) (length betas.now * length mag.now) start end samples
        (misfits wanted squares fourths) work }
{
    if bad_products(betas, mag) {
        return Err(Refusal::Couplings);
    }
    if too_many_chunks(start, end, samples) {
        return Err(Refusal::Samples);
    }
    let misfit = misfit(wanted, squares, fourths);
    check_buffers(less, n, w, mag.len(), us, vs, misfit, work)
}
