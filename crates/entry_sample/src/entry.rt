// The totals of drawn configurations, for callers.
ghost use Rattle.totals_call.specs.Calls.{Sampled};

use buffer_checks::check_sampling;
use entry_correlations::{Manner, is_elementwise};
use job_checks::check_with_betas;
use limits::{Caller, EDGES};
use plan_layout::{Arrangement, takes_less};
use refusals::Refusal;
use totals_chunks::Chunks;
use totals_job::total_job;
use totals_sums::sampled_count;

// Writes the sums of the squares and of the fourth powers of every correlation, over the samples of the chunks from `from` up to, and
// without, `to`, for each beta and pair. Two factors are lent for each beta and kept edge. Returns the count of configurations, or the
// refusal.
pub fn sample(
    n: usize,
    floor: usize,
    a: &[usize],
    b: &[usize],
    m: &[f64],
    us: &[usize],
    vs: &[usize],
    betas: &[f64],
    factors: &[f64],
    manner: Manner,
    arrangement: Arrangement,
    caller: Caller,
    seed: u64,
    from: u64,
    to: u64,
    samples: usize,
    squares: &mut [f64],
    fourths: &mut [f64],
    work: &mut [f64],
) -> Result<usize, Refusal>
    ensures { Sampled n floor a.now b.now m.now us.now vs.now
        betas.now factors.now manner arrangement caller seed from to samples result squares.old squares.new
        fourths.old fourths.new work.old work.new }
{
    let less = takes_less(arrangement);
    let mut early = [0usize; EDGES];
    let mut late = [0usize; EDGES];
    let mut mag = [0.0f64; EDGES];
    let job = check_with_betas(
        caller, n, floor, a, b, m, us, vs, betas, &mut early, &mut late, &mut mag,
    )?;
    let w = job.window;
    let edges = job.edges;
    check_sampling(
        less,
        n,
        w,
        edges,
        us,
        vs,
        betas.len(),
        factors,
        from as usize,
        to as usize,
        samples,
        betas.len() * us.len(),
        squares.len(),
        fourths.len(),
        work.len(),
    )?;
    let elementwise = is_elementwise(manner);
    let chunks = Chunks {
        drawn: true,
        seed,
        first: from,
        end: to,
        size: samples,
    };
    // Drawn configurations read no bit: any list with an entry for each edge stands for them.
    let ends = &early[..edges];
    if total_job(
        n,
        w,
        elementwise,
        less,
        ends,
        &late[..edges],
        ends,
        us,
        vs,
        factors,
        betas.len(),
        chunks,
        squares,
        fourths,
        work,
    ) {
        return Ok(sampled_count(from, to, samples));
    }
    Err(Refusal::PartitionSum)
}
