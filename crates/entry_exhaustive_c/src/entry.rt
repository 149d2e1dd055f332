// The correlations of all configurations, for callers.
ghost use Rattle.std.specs.Prelude.{◌≡◌, ◌*◌, ◌^◌, ◌≤◌};
ghost use Rattle.limits.specs.Limits.{most_stored};
ghost use Rattle.totals_call.specs.Calls.{EnumeratedEach};

use crate::job::store_job;
use buffer_checks::check_enumeration;
use entry_correlations::{Manner, is_elementwise};
use forest::number_free_edges;
use job_checks::check_with_betas;
use limits::{Caller, EDGES, STORED};
use plan_layout::{Arrangement, takes_less};
use refusals::Refusal;
use step_tables::pow2;

// How many correlations there are, where the free edges are few enough.
pub fn stored_count(sums: usize, free: usize) -> usize
    requires { sums ≤ 16384 }
    ensures { free ≤ most_stored → result ≡ sums * 2 ^ free }
{
    if STORED < free {
        return 0;
    }
    sums * pow2(free)
}

// Writes every correlation to `stored`: that of a beta, a pair and a configuration at (beta times pairs + pair) times the configurations +
// the configuration. Two factors are lent for each beta and kept edge. Returns the count of configurations, or the refusal.
pub fn exhaustive_c(
    n: usize,
    floor: usize,
    a: &[usize],
    b: &[usize],
    m: &[f64],
    us: &[usize],
    vs: &[usize],
    betas: &[f64],
    factors: &[f64],
    manner: Manner,
    arrangement: Arrangement,
    caller: Caller,
    stored: &mut [f64],
    work: &mut [f64],
) -> Result<usize, Refusal>
    ensures { EnumeratedEach n floor a.now b.now m.now us.now vs.now
        betas.now factors.now manner arrangement caller result stored.old stored.new work.old work.new }
{
    let less = takes_less(arrangement);
    let mut early = [0usize; EDGES];
    let mut late = [0usize; EDGES];
    let mut mag = [0.0f64; EDGES];
    let job = check_with_betas(
        caller, n, floor, a, b, m, us, vs, betas, &mut early, &mut late, &mut mag,
    )?;
    let w = job.window;
    let edges = job.edges;
    let mut bits = [0usize; EDGES];
    let free = number_free_edges(n, &early[..edges], &late[..edges], &mut bits[..edges]);
    check_enumeration(
        caller,
        less,
        n,
        w,
        edges,
        us,
        vs,
        betas.len(),
        factors,
        free,
        STORED,
        stored_count(betas.len() * us.len(), free),
        stored.len(),
        stored.len(),
        work.len(),
    )?;
    let elementwise = is_elementwise(manner);
    if store_job(
        n,
        w,
        elementwise,
        less,
        &early[..edges],
        &late[..edges],
        &bits[..edges],
        us,
        vs,
        factors,
        betas.len(),
        free,
        stored,
        work,
    ) {
        return Ok(pow2(free));
    }
    Err(Refusal::PartitionSum)
}
