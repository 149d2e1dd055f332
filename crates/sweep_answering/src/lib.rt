// The backward sweep, and the direct pairs that it answers as it passes their later vertex.
#![tactic(auto)]

ghost use Rattle.std.specs.Prelude.{◌≡◌, ◌+◌, ◌-◌, ◌≤◌, ◌<◌, max, length, get_or, drop, Float};
ghost use Rattle.transfer_matrix.specs.Job.{Job};
ghost use Rattle.transfer_matrix.specs.Room.{later};
ghost use Rattle.plan_steps.specs.Layout.{forward_place};
ghost use Rattle.pair_order.specs.Order.{Ordered};
ghost use Rattle.vertex_step.specs.Ready.{Ready, PlanOf, Forward, Backward};
ghost use Rattle.sweep_places.specs.Begun.{Stands};
ghost use Rattle.sweep_places.specs.Kept.{Since};
ghost use Rattle.sweep_answering.specs.Passing.{Passing, VertexPairs, AnsweredFrom};

use pair_correlations::{VertexPlaces, answer_direct};
use pair_places::later;
use plan_steps::forward_place;
use sweep_backward::{begin_from, go_on_from, kept_from, sweep_down};

// The later vertex of the last of the first `left` pairs; 0 where there is none.
fn last_vertex(us: &[usize], vs: &[usize], order: &[usize], left: usize) -> usize
    requires { (length us.now ≡ length vs.now) × Ordered order.now (length us.now) × (left ≤ length order.now) }
    ensures { 0 < left → result ≡ later us.now vs.now (get_or order.now (left - 1) 0) }
{
    if left == 0 {
        return 0;
    }
    let p = order[left - 1];
    later(us[p], vs[p])
}

// Where the pairs of vertex v begin that are the last of the first `left`.
fn first_of(us: &[usize], vs: &[usize], order: &[usize], left: usize, v: usize) -> usize
    requires { (length us.now ≡ length vs.now) × Ordered order.now (length us.now) × (left ≤ length order.now) }
    ensures { VertexPairs us.now vs.now order.now left v result }
{
    for k in (0..left).rev() {
        if last_vertex(us, vs, order, k + 1) != v {
            return k + 1;
        }
    }
    0
}

// Sweeps back from the last vertex, down to the first of the backward vectors that the plan has a place for, and keeps these. The first `passing`
// pairs of the order are answered on the way, from the newest vector; returns whether all their Z are finite and above zero. The kept vectors
// from vertex `changed` on stand already: from pair to pair the sweep goes on from the nearest of them. None stands where `changed` is the last
// vertex or more.
pub fn sweep_answering(
    room: &mut [f64],
    plan: &[usize],
    n: usize,
    w: usize,
    scales: usize,
    elementwise: bool,
    changed: usize,
    us: &[usize],
    vs: &[usize],
    order: &[usize],
    passing: usize,
    results: &mut [f64],
) -> bool
    requires { (1 ≤ n) × Ready plan.now (length room.old) n w scales × Passing plan.now us.now vs.now order.now n w passing
        × (length results.old ≡ length us.now) }
    ensures since { Since (forward_place plan.now) room.old room.new n w scales }
    ensures backward { (J : Job Float) → PlanOf J plan.now (drop (scales + n) room.old) n w elementwise
        → Forward J plan.now room.old w scales n → Stands J plan.now room.old n w changed
        → Backward J plan.now room.new n w 0
        × AnsweredFrom J us.now vs.now order.now 0 passing results.new result }
{
    let mut bits = [0usize; 4];
    let mut up = [0.0f64; 16];
    let mut down = [0.0f64; 16];
    let mut bits2 = [0usize; 4];
    let mut up2 = [0.0f64; 16];
    let mut down2 = [0.0f64; 16];
    let mut left = passing;
    let mut sound = true;
    let first = changed.max(last_vertex(us, vs, order, left));
    let mut at = begin_from(room, plan, n, w, scales, elementwise, first);
    while left > 0 {
        let v = last_vertex(us, vs, order, left);
        let newest = sweep_down(
            room,
            plan,
            n,
            w,
            scales,
            elementwise,
            at,
            v,
            &mut bits,
            &mut up,
            &mut down,
            &mut bits2,
            &mut up2,
            &mut down2,
        );
        let from = first_of(us, vs, order, left, v);
        let places = VertexPlaces {
            vertex: v,
            forward: forward_place(plan, v),
            backward: newest.place,
        };
        sound = answer_direct(room, w, us, vs, order, places, from, left, results) & sound;
        left = from;
        let next = changed.max(last_vertex(us, vs, order, left));
        at = go_on_from(room, plan, n, w, scales, elementwise, next, newest);
    }
    let stop = at.vertex.min(kept_from(plan, n, 0));
    sweep_down(
        room,
        plan,
        n,
        w,
        scales,
        elementwise,
        at,
        stop,
        &mut bits,
        &mut up,
        &mut down,
        &mut bits2,
        &mut up2,
        &mut down2,
    );
    sound
}
