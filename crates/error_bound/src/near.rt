// How many back edges shorter than the window a vertex has at most.
ghost use Rattle.std.specs.Prelude.{◌≡◌, false};
ghost use Rattle.list_laws.specs.Most.{most};
ghost use Rattle.transfer_matrix.specs.Job.{too_many_near};
ghost use Rattle.transfer_matrix.specs.Configuration.{numbered};
ghost use Rattle.plan_steps.specs.Edges.{Edges};
ghost use Rattle.plan_steps.specs.Layout.{Holds, near_count};
ghost use Rattle.error_bound.specs.Bound.{most_near};

use limits::PLAN;
use plan_steps::{near_count, plan_edges};

// The largest number of near edges that the plan says of a vertex.
fn most_planned(plan: &[usize], n: usize) -> usize
    requires { Holds plan.now n }
    ensures { result ≡ most (near_count plan.now) n }
{
    let mut near = 0usize;
    for t in 0..n {
        let count = near_count(plan, t);
        if near < count {
            near = count;
        }
    }
    near
}

fn plan_and_count(plan: &mut [usize], n: usize, w: usize, early: &[usize], late: &[usize]) -> usize
    requires { Edges early.now late.now n w × Holds plan.old n × (too_many_near n w (numbered early.now late.now) ≡ false) }
    ensures { result ≡ most_near n w (numbered early.now late.now) }
{
    plan_edges(plan, n, w, early, late);
    most_planned(plan, n)
}

pub fn most_near(n: usize, w: usize, early: &[usize], late: &[usize]) -> usize
    requires { Edges early.now late.now n w × (too_many_near n w (numbered early.now late.now) ≡ false) }
    ensures { result ≡ most_near n w (numbered early.now late.now) }
{
    let mut plan = [0usize; PLAN];
    plan_and_count(&mut plan, n, w, early, late)
}
