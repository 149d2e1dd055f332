// The pair correlations of one configuration, for callers.
ghost use Rattle.refusals.specs.Numbers.{refused};
ghost use Rattle.entry_correlations.specs.Correlations.{Correlated};

use crate::Manner;
use crate::rescaling::is_elementwise;
use buffer_checks::check_lists;
use job_checks::check_job;
use job_run::answer_job;
use limits::{Caller, EDGES};
use plan_layout::{Arrangement, takes_less};
use refusals::Refusal;

// Writes the correlation of each pair to `results`. The edges come in three lists of ends and magnitudes, the pairs in two lists of ends;
// one factor is lent for each kept edge.
pub fn correlations(
    n: usize,
    floor: usize,
    a: &[usize],
    b: &[usize],
    m: &[f64],
    us: &[usize],
    vs: &[usize],
    factors: &[f64],
    manner: Manner,
    arrangement: Arrangement,
    caller: Caller,
    results: &mut [f64],
    work: &mut [f64],
) -> Result<(), Refusal>
    ensures { Correlated n floor a.now b.now m.now us.now vs.now
        factors.now manner arrangement caller (refused result) results.old results.new work.old work.new }
{
    let mut early = [0usize; EDGES];
    let mut late = [0usize; EDGES];
    let mut mag = [0.0f64; EDGES];
    let job = check_job(
        caller, n, floor, a, b, m, us, vs, &mut early, &mut late, &mut mag,
    )?;
    let w = job.window;
    let edges = job.edges;
    let less = takes_less(arrangement);
    check_lists(
        less,
        n,
        w,
        edges,
        us,
        vs,
        factors,
        results.len(),
        work.len(),
    )?;
    let elementwise = is_elementwise(manner);
    if answer_job(
        n,
        w,
        &early[..edges],
        &late[..edges],
        us,
        vs,
        factors,
        elementwise,
        less,
        results,
        work,
    ) {
        return Ok(());
    }
    Err(Refusal::PartitionSum)
}
