// The answers of a job's pairs, from its factors: both sweeps over its vertices, and the sums of the pairs. Two arrangements: with less room the
// direct pairs are answered while the backward sweep passes their later vertex, and only the later vertices of propagated pairs keep a backward
// vector. One contract holds for both.
#![tactic(auto)]

ghost use Rattle.std.specs.Prelude.{◌≡◌, cond, ◌+◌, ◌≤◌, length, drop, Float};
ghost use Rattle.transfer_matrix.specs.Job.{Job};
ghost use Rattle.pair_order.specs.Order.{InOrder};
ghost use Rattle.vertex_step.specs.Ready.{Ready, PlanOf, Backward};
ghost use Rattle.sweep_places.specs.Begun.{Stands};
ghost use Rattle.sweep_places.specs.Kept.{SameFrom};
ghost use Rattle.pair_correlations.specs.Served.{Served};
ghost use Rattle.pair_correlations.specs.Sound.{Outcome};

use pair_correlations::answer_pairs;
use propagation::direct_pairs;
use sweep_answering::sweep_answering;
use sweep_forward::sweep_forward;

// How many pairs, of `directs`, are answered while the backward sweep passes.
fn in_passing(less: bool, directs: usize) -> usize
    ensures { result ≡ cond less directs 0 }
{
    if less { directs } else { 0 }
}

// Sweeps, and answers the pairs; `less`: with less room. Returns whether every pair's Z is finite and above zero; where one is not, the results
// are not all written. The kept backward vectors from vertex `changed` on stand already; none does where `changed` is the last vertex or more.
// All of them stand after.
pub fn sweep_and_answer(
    room: &mut [f64],
    plan: &[usize],
    n: usize,
    w: usize,
    scales: usize,
    elementwise: bool,
    less: bool,
    changed: usize,
    us: &[usize],
    vs: &[usize],
    order: &[usize],
    results: &mut [f64],
) -> bool
    requires { (1 ≤ n) × Ready plan.now (length room.old) n w scales × Served plan.now us.now vs.now n w less
        × InOrder order.now us.now vs.now w × (length results.old ≡ length us.now) }
    ensures same_from { SameFrom room.old room.new (scales + n) }
    ensures outcome { (J : Job Float) → PlanOf J plan.now (drop (scales + n) room.old) n w elementwise
        → Stands J plan.now room.old n w changed
        → Outcome J us.now vs.now results.new result × Backward J plan.now room.new n w 0 }
{
    let directs = direct_pairs(us, vs, order, n, w);
    let passing = in_passing(less, directs);
    sweep_forward(room, plan, n, w, scales, elementwise);
    if !sweep_answering(
        room,
        plan,
        n,
        w,
        scales,
        elementwise,
        changed,
        us,
        vs,
        order,
        passing,
        results,
    ) {
        return false;
    }
    answer_pairs(
        room, plan, n, w, scales, us, vs, order, directs, passing, results,
    )
}
