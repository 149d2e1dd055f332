// The totals of all configurations, for callers.
ghost use Rattle.totals_call.specs.Calls.{Enumerated};

use buffer_checks::check_enumeration;
use entry_correlations::{Manner, is_elementwise};
use forest::number_free_edges;
use job_checks::check_with_betas;
use limits::{COUNTED, Caller, EDGES};
use plan_layout::{Arrangement, takes_less};
use refusals::Refusal;
use step_tables::pow2;
use totals_chunks::all_chunks;
use totals_job::total_job;

// Writes the sums of the squares and of the fourth powers of every correlation, over all configurations, for each beta and pair. Two
// factors are lent for each beta and kept edge. Returns the count of configurations, or the refusal.
pub fn exhaustive(
    n: usize,
    floor: usize,
    a: &[usize],
    b: &[usize],
    m: &[f64],
    us: &[usize],
    vs: &[usize],
    betas: &[f64],
    factors: &[f64],
    manner: Manner,
    arrangement: Arrangement,
    caller: Caller,
    squares: &mut [f64],
    fourths: &mut [f64],
    work: &mut [f64],
) -> Result<usize, Refusal>
    ensures { Enumerated n floor a.now b.now m.now us.now vs.now
        betas.now factors.now manner arrangement caller result squares.old squares.new
        fourths.old fourths.new work.old work.new }
{
    let less = takes_less(arrangement);
    let mut early = [0usize; EDGES];
    let mut late = [0usize; EDGES];
    let mut mag = [0.0f64; EDGES];
    let job = check_with_betas(
        caller, n, floor, a, b, m, us, vs, betas, &mut early, &mut late, &mut mag,
    )?;
    let w = job.window;
    let edges = job.edges;
    let mut bits = [0usize; EDGES];
    let free = number_free_edges(n, &early[..edges], &late[..edges], &mut bits[..edges]);
    check_enumeration(
        caller,
        less,
        n,
        w,
        edges,
        us,
        vs,
        betas.len(),
        factors,
        free,
        COUNTED,
        betas.len() * us.len(),
        squares.len(),
        fourths.len(),
        work.len(),
    )?;
    let elementwise = is_elementwise(manner);
    let chunks = all_chunks(free);
    if total_job(
        n,
        w,
        elementwise,
        less,
        &early[..edges],
        &late[..edges],
        &bits[..edges],
        us,
        vs,
        factors,
        betas.len(),
        chunks,
        squares,
        fourths,
        work,
    ) {
        return Ok(pow2(free));
    }
    Err(Refusal::PartitionSum)
}
