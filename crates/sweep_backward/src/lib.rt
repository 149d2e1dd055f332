// The backward sweep: where it begins, and how it goes down from vertex to vertex.
#![tactic(auto)]

ghost use Rattle.std.specs.Prelude.{◌≡◌, ◌+◌, ◌≤◌, ◌<◌, length};
ghost use Rattle.plan_steps.specs.Layout.{Holds, backward_place};
ghost use Rattle.step_tables.specs.Place.{Place};
ghost use Rattle.vertex_step.specs.Ready.{Ready};
ghost use Rattle.sweep_places.specs.Begun.{KeptFrom, Begun, GoneOn};
ghost use Rattle.sweep_places.specs.Target.{Target, Free};
ghost use Rattle.sweep_places.specs.Steps.{BackwardSteps};
ghost use Rattle.sweep_places.specs.BackwardInvariant.{NewestBackward, BackwardInvariant};

use pair_sums::{half_stored, is_due};
use plan_steps::backward_place;
use sweep_places::{place_for, start_at};
use vertex_step::backward_through;

// The last vertex of an iteration from t on, in a sweep down to `stop`. Two steps are taken in one pass where no largest entry is due between
// them and the vector between them is neither kept nor that of `stop`; in a window below 6 one at a time is quicker.
fn backward_last(plan: &[usize], w: usize, elementwise: bool, stop: usize, t: usize) -> usize
    requires { Holds plan.now t × (stop < t) }
    ensures { BackwardSteps plan.now w elementwise stop t result }
{
    if elementwise {
        return t;
    }
    if w < 6 {
        return t;
    }
    if t - stop < 2 {
        return t;
    }
    if t % 4 == 0 {
        return t;
    }
    if backward_place(plan, t - 1) > 0 {
        return t;
    }
    t - 1
}

// The first vertex from c on whose backward vector has a place, or the last vertex.
pub fn kept_from(plan: &[usize], n: usize, c: usize) -> usize
    requires { Holds plan.now n × (1 ≤ n) }
    ensures { KeptFrom plan.now n c result }
{
    let last = n - 1;
    for t in c..last {
        if backward_place(plan, t) > 0 {
            return t;
        }
    }
    last
}

// The vector of vertex t at place src: written at the last vertex, kept already elsewhere. Returns the largest entry that was stored with it.
fn begin_at(room: &mut [f64], n: usize, w: usize, elementwise: bool, t: usize, src: usize) -> f64
    requires { Place (length room.old) w src × (t < n) }
    ensures { Begun room.old room.new n w elementwise t src result }
{
    if t + 1 < n {
        return half_stored(room, src, w, is_due(elementwise, 0, t + 1));
    }
    start_at(room, w, src);
    1.0
}

// The newest vector of a sweep: its vertex, its place, and the largest entry that was stored with it.
#[derive(Drop)]
pub struct NewestVector {
    pub vertex: usize,
    pub place: usize,
    pub largest: f64,
}

// Where a sweep begins that has to pass vertex c, the kept vectors from c on standing already: at the nearest of these, or at the last vertex.
pub fn begin_from(
    room: &mut [f64],
    plan: &[usize],
    n: usize,
    w: usize,
    scales: usize,
    elementwise: bool,
    c: usize,
) -> NewestVector
    requires { (1 ≤ n) × Ready plan.now (length room.old) n w scales }
    ensures { KeptFrom plan.now n c result.vertex × Target (backward_place plan.now result.vertex) 1 result.place
        × Begun room.old room.new n w elementwise result.vertex result.place result.largest }
{
    let t = kept_from(plan, n, c);
    let place = place_for(backward_place(plan, t), 1);
    let largest = begin_at(room, n, w, elementwise, t, place);
    NewestVector {
        vertex: t,
        place: place,
        largest: largest,
    }
}

// Where a sweep goes on that stands at `newest` and has to pass vertex c next, the kept vectors from c on standing already: at the nearest of
// these, where it is below; else where it stands.
pub fn go_on_from(
    room: &[f64],
    plan: &[usize],
    n: usize,
    w: usize,
    scales: usize,
    elementwise: bool,
    c: usize,
    newest: NewestVector,
) -> NewestVector
    requires { Ready plan.now (length room.now) n w scales × (newest.vertex < n) }
    ensures { GoneOn plan.now room.now w elementwise c newest.vertex newest.place newest.largest
        result.vertex result.place result.largest }
{
    if newest.vertex <= c {
        return newest;
    }
    let k = kept_from(plan, n, c);
    if newest.vertex <= k {
        return newest;
    }
    let place = backward_place(plan, k);
    let largest = half_stored(room, place, w, is_due(elementwise, 0, k + 1));
    NewestVector {
        vertex: k,
        place: place,
        largest: largest,
    }
}

// Steps from the newest vector down to vertex `stop`, whose vector it returns; the step at t gives the vector of t - 1. Keeps the lower halves
// of the backward vectors that the plan has a place for. In the block manner the largest entry is taken after steps with t % 4 = 0. The lists
// are the steps' tables; what they hold does not matter.
pub fn sweep_down(
    room: &mut [f64],
    plan: &[usize],
    n: usize,
    w: usize,
    scales: usize,
    elementwise: bool,
    newest: NewestVector,
    stop: usize,
    bits: &mut [usize; 4],
    up: &mut [f64; 16],
    down: &mut [f64; 16],
    bits2: &mut [usize; 4],
    up2: &mut [f64; 16],
    down2: &mut [f64; 16],
) -> NewestVector
    requires { Ready plan.now (length room.old) n w scales × (newest.vertex < n) × (stop ≤ newest.vertex)
        × Free (backward_place plan.now) n w scales newest.place (λ u. u < newest.vertex) }
    ensures vertex_value { result.vertex ≡ stop }
    ensures backward_invariant { BackwardInvariant plan.now room.old room.new n w scales elementwise
        (λ J. NewestBackward J plan.now room.old n w newest.vertex newest.place newest.largest) stop result.place result.largest }
{
    let factors = scales + n;
    let mut t = newest.vertex;
    let mut src = newest.place;
    let mut most = newest.largest;
    while t > stop {
        let scale = 1.0 / most;
        let last = backward_last(plan, w, elementwise, stop, t);
        let u = last - 1;
        let dst = place_for(backward_place(plan, u), src);
        let due = is_due(elementwise, 0, last);
        most = backward_through(
            room, factors, plan, w, t, last, scale, 1.0, src, dst, due, bits, up, down, bits2, up2,
            down2,
        );
        src = dst;
        t = u;
    }
    NewestVector {
        vertex: stop,
        place: src,
        largest: most,
    }
}
