// The checks that read a job's graph and pairs.
ghost use Rattle.std.specs.Prelude.{◌≡◌, [], length};
ghost use Rattle.limits.specs.Limits.{most_edges};
ghost use Rattle.refusals.specs.Edges.{dropping};
ghost use Rattle.kept_edges.specs.Keep.{Holds, KeptEdges};
ghost use Rattle.job_checks.specs.Checked.{CheckedKept, CheckedJob};

use graph_build::check_graph_dropping;
use graph_checks::bad_edges;
use kept_edges::window_of;
use limits::{Caller, TESTER_WINDOW, WINDOW, over_limit};
use plan_steps::too_many_near;
use refusals::Refusal;

// How many edges a job keeps, and its window.
#[derive(Clone, Copy)]
pub struct Job {
    pub edges: usize,
    pub window: usize,
}

// Checks 6, 22, 7 and 8, which read the kept edges and the pairs; 8 asks of a pair what 3 asks of an edge.
fn check_kept(
    caller: Caller,
    n: usize,
    floor: usize,
    early: &[usize],
    late: &[usize],
    us: &[usize],
    vs: &[usize],
) -> Result<Job, Refusal>
    requires { KeptEdges n early.now late.now × (length vs.now ≡ length us.now) }
    ensures { CheckedKept caller n floor early.now late.now us.now vs.now result }
{
    let window = window_of(floor, early, late);
    if WINDOW < window {
        return Err(Refusal::Window);
    }
    if over_limit(caller, TESTER_WINDOW, window) {
        return Err(Refusal::TesterLimit);
    }
    if too_many_near(n, window, early, late) {
        return Err(Refusal::BackEdges);
    }
    if bad_edges(n, us, vs) {
        return Err(Refusal::PairEnds);
    }
    let edges = early.len();
    Ok(Job { edges, window })
}

// Checks 1 to 8 of a caller's job with betas, and 22 of its window. Where none fits, the kept edges stand at the fronts of the three lists.
// The magnitude at `dropped` counts as zero.
pub fn check_dropping(
    caller: Caller,
    n: usize,
    floor: usize,
    a: &[usize],
    b: &[usize],
    m: &[f64],
    dropped: usize,
    us: &[usize],
    vs: &[usize],
    betas: &[f64],
    early: &mut [usize],
    late: &mut [usize],
    mag: &mut [f64],
) -> Result<Job, Refusal>
    requires { Holds most_edges early.old late.old mag.old }
    ensures { CheckedJob caller n floor a.now b.now (dropping dropped m.now) us.now vs.now
        betas.now result
        early.old early.new late.old late.new mag.old mag.new }
{
    let edges = check_graph_dropping(n, a, b, m, dropped, us, vs, betas, early, late, mag)?;
    check_kept(caller, n, floor, &early[..edges], &late[..edges], us, vs)
}

// The same where no magnitude counts as another.
pub fn check_with_betas(
    caller: Caller,
    n: usize,
    floor: usize,
    a: &[usize],
    b: &[usize],
    m: &[f64],
    us: &[usize],
    vs: &[usize],
    betas: &[f64],
    early: &mut [usize],
    late: &mut [usize],
    mag: &mut [f64],
) -> Result<Job, Refusal>
    requires { Holds most_edges early.old late.old mag.old }
    ensures { CheckedJob caller n floor a.now b.now m.now us.now vs.now
        betas.now result
        early.old early.new late.old late.new mag.old mag.new }
{
    check_dropping(
        caller,
        n,
        floor,
        a,
        b,
        m,
        m.len(),
        us,
        vs,
        betas,
        early,
        late,
        mag,
    )
}

// The same of a job that has no betas.
pub fn check_job(
    caller: Caller,
    n: usize,
    floor: usize,
    a: &[usize],
    b: &[usize],
    m: &[f64],
    us: &[usize],
    vs: &[usize],
    early: &mut [usize],
    late: &mut [usize],
    mag: &mut [f64],
) -> Result<Job, Refusal>
    requires { Holds most_edges early.old late.old mag.old }
    ensures { CheckedJob caller n floor a.now b.now m.now us.now vs.now [] result
        early.old early.new late.old late.new mag.old mag.new }
{
    check_with_betas(caller, n, floor, a, b, m, us, vs, &m[..0], early, late, mag)
}
