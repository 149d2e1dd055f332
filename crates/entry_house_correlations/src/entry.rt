// The pair correlations of one configuration with house factors, for callers.
ghost use Rattle.std.specs.Prelude.{◌≡◌, false, cond, length};
ghost use Rattle.std.specs.Float.{nan};
ghost use Rattle.coupling_grid.specs.Grid.{some_off_grid};
ghost use Rattle.house_factors.specs.Factors.{single_factors};
ghost use Rattle.transfer_matrix.specs.Job.{block, per_element};
ghost use Rattle.transfer_matrix.specs.Configuration.{job_of};
ghost use Rattle.transfer_matrix.specs.Room.{arranged};
ghost use Rattle.job_run.specs.Passed.{JobPassed, JobFinished};
ghost use Rattle.refusals.specs.Numbers.{refused};
ghost use Rattle.entry_correlations.specs.Correlations.{HouseCorrelated};

use entry_correlations::{Manner, is_elementwise};
use house_checks::check_house_lists;
use house_factors::lay_single;
use job_checks::check_job;
use job_run::answer_job;
use limits::{Caller, EDGES};
use plan_layout::{Arrangement, takes_less};
use refusals::Refusal;

// Lays the factors of the couplings, then answers the job. Returns whether every Z was finite and above zero.
fn answer_laid(
    n: usize,
    w: usize,
    early: &[usize],
    late: &[usize],
    us: &[usize],
    vs: &[usize],
    couplings: &[f64],
    factors: &mut [f64],
    elementwise: bool,
    less: bool,
    results: &mut [f64],
    work: &mut [f64],
) -> bool
    requires { JobPassed (arranged less) n w early.now late.now us.now vs.now (single_factors couplings.now) (length results.old) (length work.old)
        × (length factors.old ≡ length couplings.now) × (some_off_grid couplings.now ≡ false) }
    ensures { JobFinished (job_of nan n w early.now late.now (single_factors couplings.now) (cond elementwise per_element block))
        (arranged less) n (length early.now) us.now vs.now result results.new work.old work.new }
{
    lay_single(couplings, factors);
    answer_job(
        n,
        w,
        early,
        late,
        us,
        vs,
        factors,
        elementwise,
        less,
        results,
        work,
    )
}

// Writes the correlation of each pair to `results`. The edges come in three lists of ends and magnitudes, the pairs in two lists of ends;
// one coupling is lent for each kept edge, and its factor is the house table's.
pub fn house_correlations(
    n: usize,
    floor: usize,
    a: &[usize],
    b: &[usize],
    m: &[f64],
    us: &[usize],
    vs: &[usize],
    couplings: &[f64],
    manner: Manner,
    arrangement: Arrangement,
    caller: Caller,
    results: &mut [f64],
    work: &mut [f64],
) -> Result<(), Refusal>
    ensures { HouseCorrelated n floor a.now b.now m.now us.now vs.now
        couplings.now manner arrangement caller (refused result) results.old results.new work.old work.new }
{
    let mut early = [0usize; EDGES];
    let mut late = [0usize; EDGES];
    let mut mag = [0.0f64; EDGES];
    let job = check_job(
        caller, n, floor, a, b, m, us, vs, &mut early, &mut late, &mut mag,
    )?;
    let w = job.window;
    let edges = job.edges;
    let less = takes_less(arrangement);
    check_house_lists(
        less,
        n,
        w,
        edges,
        us,
        vs,
        couplings,
        results.len(),
        work.len(),
    )?;
    let mut factors = [0.0f64; EDGES];
    let elementwise = is_elementwise(manner);
    if answer_laid(
        n,
        w,
        &early[..edges],
        &late[..edges],
        us,
        vs,
        couplings,
        &mut factors[..edges],
        elementwise,
        less,
        results,
        work,
    ) {
        return Ok(());
    }
    Err(Refusal::PartitionSum)
}
