// The correlations of all configurations with house factors, for callers.
ghost use Rattle.totals_call.specs.Calls.{HouseEnumeratedEach};

use entry_correlations::{Manner, is_elementwise};
use entry_exhaustive_c::stored_count;
use forest::number_free_edges;
use house_checks::check_house_enumeration;
use job_checks::check_with_betas;
use limits::{Caller, EDGES, STORED};
use plan_layout::{Arrangement, takes_less};
use refusals::Refusal;
use step_tables::pow2;
use totals_house_stored::store_house_job;

// Writes every correlation to `stored`: that of a beta, a pair and a configuration at (beta times pairs + pair) times the configurations +
// the configuration. The factors are the house table's at beta times magnitude. Returns the count of configurations, or the refusal.
pub fn house_exhaustive_c(
    n: usize,
    floor: usize,
    a: &[usize],
    b: &[usize],
    m: &[f64],
    us: &[usize],
    vs: &[usize],
    betas: &[f64],
    manner: Manner,
    arrangement: Arrangement,
    caller: Caller,
    stored: &mut [f64],
    work: &mut [f64],
) -> Result<usize, Refusal>
    ensures { HouseEnumeratedEach n floor a.now b.now m.now us.now vs.now
        betas.now manner arrangement caller result stored.old stored.new work.old work.new }
{
    let less = takes_less(arrangement);
    let mut early = [0usize; EDGES];
    let mut late = [0usize; EDGES];
    let mut mag = [0.0f64; EDGES];
    let job = check_with_betas(
        caller, n, floor, a, b, m, us, vs, betas, &mut early, &mut late, &mut mag,
    )?;
    let w = job.window;
    let edges = job.edges;
    let mut bits = [0usize; EDGES];
    let free = number_free_edges(n, &early[..edges], &late[..edges], &mut bits[..edges]);
    check_house_enumeration(
        caller,
        less,
        n,
        w,
        us,
        vs,
        betas,
        &mag[..edges],
        free,
        STORED,
        stored_count(betas.len() * us.len(), free),
        stored.len(),
        stored.len(),
        work.len(),
    )?;
    let elementwise = is_elementwise(manner);
    if store_house_job(
        n,
        w,
        elementwise,
        less,
        &early[..edges],
        &late[..edges],
        &mag[..edges],
        &bits[..edges],
        us,
        vs,
        betas,
        free,
        stored,
        work,
    ) {
        return Ok(pow2(free));
    }
    Err(Refusal::PartitionSum)
}
