// A propagated vector goes on from vertex to vertex by its lower half, which is an antisymmetric one. It moves between places 0 and 1: what the sweeps
// kept stays.
ghost use Rattle.std.specs.Prelude.{◌≤◌, ◌<◌, length};
ghost use Rattle.plan_steps.specs.Layout.{forward_place};
ghost use Rattle.vertex_step.specs.Ready.{Ready};
ghost use Rattle.propagation.specs.Current.{AdvanceSteps, Advanced, Propagated};

use plan_steps::forward_place;
use step_runs::half_alternate;
use vertex_step::forward_through;

// The current propagated vector: of which vertex, which vertex it has reached, and its place. The vertex is n where there is none.
#[derive(Drop)]
pub struct CurrentVector {
    pub vertex: usize,
    pub reached: usize,
    pub place: usize,
}

// The last vertex that one pass from t on steps to, before or at `to`: two steps are taken in one pass where they can be. In a window below 6
// one at a time is quicker.
fn advance_last(w: usize, t: usize, to: usize) -> usize
    requires { t ≤ to }
    ensures { AdvanceSteps w t to result }
{
    if w < 6 {
        return t;
    }
    if t == to { t } else { t + 1 }
}

// The vector at place `at`, which has reached vertex `from`, goes on to vertex `to` by the stored scales; returns its place.
fn advance(
    room: &mut [f64],
    plan: &[usize],
    n: usize,
    w: usize,
    scales: usize,
    from: usize,
    to: usize,
    at: usize,
) -> usize
    requires { Ready plan.now (length room.old) n w scales × (from ≤ to) × (to < n) × (at < 2) }
    ensures { Advanced plan.now room.old room.new n w scales from at to result }
{
    let mut bits = [0usize; 4];
    let mut up = [0.0f64; 16];
    let mut down = [0.0f64; 16];
    let mut bits2 = [0usize; 4];
    let mut up2 = [0.0f64; 16];
    let mut down2 = [0.0f64; 16];
    let mut src = at;
    let mut t = from;
    while t < to {
        let next = t + 1;
        let last = advance_last(w, next, to);
        let scale = room[scales + next];
        let then = room[scales + last];
        let dst = 1 - src;
        forward_through(
            room,
            scales + n,
            plan,
            w,
            next,
            last,
            scale,
            then,
            true,
            src,
            dst,
            false,
            &mut bits,
            &mut up,
            &mut down,
            &mut bits2,
            &mut up2,
            &mut down2,
        );
        src = dst;
        t = last;
    }
    src
}

// The propagated vector of u at v: on from the current one if that is u's and not past v, else anew from u's forward vector. Returns its
// place.
pub fn propagate(
    room: &mut [f64],
    plan: &[usize],
    n: usize,
    w: usize,
    scales: usize,
    u: usize,
    v: usize,
    current: CurrentVector,
) -> usize
    requires { Ready plan.now (length room.old) n w scales × (u ≤ v) × (v < n) × (0 < forward_place plan.now u) × (current.place < 2) }
    ensures { Propagated plan.now room.old room.new n w scales u v current result }
{
    if current.vertex == u {
        if current.reached <= v {
            return advance(room, plan, n, w, scales, current.reached, v, current.place);
        }
    }
    let f = forward_place(plan, u);
    half_alternate(room, f, 0, w);
    advance(room, plan, n, w, scales, u, v, 0)
}
