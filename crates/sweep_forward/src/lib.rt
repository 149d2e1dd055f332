// The forward sweep.
#![tactic(auto)]

ghost use Rattle.std.specs.Prelude.{◌+◌, ◌<◌, length, drop, Float};
ghost use Rattle.transfer_matrix.specs.Job.{Job};
ghost use Rattle.plan_steps.specs.Layout.{Holds, backward_place};
ghost use Rattle.vertex_step.specs.Ready.{Ready, PlanOf, Forward};
ghost use Rattle.sweep_places.specs.Kept.{Since};
ghost use Rattle.sweep_places.specs.Steps.{ForwardSteps};

use pair_sums::is_due;
use plan_steps::forward_place;
use sweep_places::{place_for, start_at};
use vertex_step::forward_through;

// The last vertex of an iteration from t on. Two steps are taken in one pass where no largest entry is due between them and the vector between
// them is not kept; in a window below 6 one at a time is quicker.
fn forward_last(plan: &[usize], n: usize, w: usize, elementwise: bool, t: usize) -> usize
    requires { Holds plan.now n × (t < n) }
    ensures { ForwardSteps plan.now n w elementwise t result }
{
    if elementwise {
        return t;
    }
    if w < 6 {
        return t;
    }
    if t + 1 == n {
        return t;
    }
    if t % 4 == 3 {
        return t;
    }
    if forward_place(plan, t) > 0 {
        return t;
    }
    t + 1
}

// Steps from vertex 0 to the last: stores every scale, and keeps the lower halves of the forward vectors that the plan has a place for. In
// the block manner the largest entry is taken after steps with t % 4 = 3.
pub fn sweep_forward(
    room: &mut [f64],
    plan: &[usize],
    n: usize,
    w: usize,
    scales: usize,
    elementwise: bool,
)
    requires { Ready plan.now (length room.old) n w scales }
    ensures since { Since (backward_place plan.now) room.old room.new n w (scales + n) }
    ensures forward { (J : Job Float) → PlanOf J plan.now (drop (scales + n) room.old) n w elementwise
        → Forward J plan.now room.new w scales n }
{
    let factors = scales + n;
    let mut bits = [0usize; 4];
    let mut up = [0.0f64; 16];
    let mut down = [0.0f64; 16];
    let mut bits2 = [0usize; 4];
    let mut up2 = [0.0f64; 16];
    let mut down2 = [0.0f64; 16];
    start_at(room, w, 0);
    let mut src = 0usize;
    let mut most = 1.0;
    let mut t = 0usize;
    while t < n {
        let scale = 1.0 / most;
        let last = forward_last(plan, n, w, elementwise, t);
        room[scales + last] = 1.0;
        room[scales + t] = scale;
        let dst = place_for(forward_place(plan, last), src);
        let due = is_due(elementwise, 3, last);
        most = forward_through(
            room, factors, plan, w, t, last, scale, 1.0, false, src, dst, due, &mut bits, &mut up,
            &mut down, &mut bits2, &mut up2, &mut down2,
        );
        src = dst;
        t = last + 1;
    }
}
