// A job that passed its checks: from its kept edges to the results.
ghost use Rattle.std.specs.Prelude.{cond, length};
ghost use Rattle.std.specs.Float.{nan};
ghost use Rattle.transfer_matrix.specs.Job.{block, per_element};
ghost use Rattle.transfer_matrix.specs.Configuration.{job_of};
ghost use Rattle.transfer_matrix.specs.Room.{arranged};
ghost use Rattle.job_run.specs.Passed.{JobPassed, JobFinished};

use crate::planned::{lay_factors, run};
use limits::{PAIRS, PLAN};
use pair_order::order_pairs;
use plan_layout::make_plan;

// The answers of the pairs, with the room at +0.0 after: plans the job, orders its pairs, lays the factors into the room and runs. Returns
// whether every pair's Z is finite and above zero; where one is not, all results are +0.0.
pub fn answer_job(
    n: usize,
    w: usize,
    early: &[usize],
    late: &[usize],
    us: &[usize],
    vs: &[usize],
    factors: &[f64],
    elementwise: bool,
    less: bool,
    results: &mut [f64],
    work: &mut [f64],
) -> bool
    requires { JobPassed (arranged less) n w early.now late.now us.now vs.now factors.now (length results.old) (length work.old) }
    ensures { JobFinished (job_of nan n w early.now late.now factors.now (cond elementwise per_element block))
        (arranged less) n (length early.now) us.now vs.now result results.new work.old work.new }
{
    let mut plan = [0usize; PLAN];
    let mut orders = [0usize; PAIRS];
    let layout = make_plan(&mut plan, less, n, w, early, late, us, vs);
    let pairs = us.len();
    let order = &mut orders[..pairs];
    order_pairs(order, n, w, us, vs);
    let end = layout.room;
    let room = &mut work[..end];
    lay_factors(room, layout.factors, factors);
    run(
        room,
        &plan,
        n,
        w,
        layout.scales,
        elementwise,
        less,
        us,
        vs,
        order,
        results,
    )
}
