// Where the sums of a pair are read.
ghost use Rattle.std.specs.Prelude.{◌<◌, length};
ghost use Rattle.plan_steps.specs.Layout.{Holds, forward_place, backward_place};
ghost use Rattle.vertex_step.specs.Ready.{Ready};
ghost use Rattle.pair_correlations.specs.Aim.{PairPlaces, DirectSource, Aimed};

use pair_sums::Source;
use plan_steps::{backward_place, forward_place};
use propagation::{CurrentVector, propagate};

// Where a pair's sums are read, and the current propagated vector.
#[derive(Drop)]
pub struct Aim {
    pub source: Source,
    pub current: CurrentVector,
}

// Where the sums of the direct pair u < v are read.
pub fn direct_source(plan: &[usize], n: usize, w: usize, u: usize, v: usize) -> Source
    requires { Holds plan.now n × PairPlaces plan.now n w u v }
    ensures { DirectSource (forward_place plan.now v) (backward_place plan.now v) u v result }
{
    let f = forward_place(plan, v);
    let b = backward_place(plan, v);
    Source {
        f: f,
        g: f,
        b: b,
        d: v - u,
    }
}

// Where the sums of the pair u < v are read. A pair nearer than the window is direct; at the window or farther it is propagated.
pub fn aim_at(
    room: &mut [f64],
    plan: &[usize],
    n: usize,
    w: usize,
    scales: usize,
    u: usize,
    v: usize,
    current: CurrentVector,
) -> Aim
    requires { Ready plan.now (length room.old) n w scales × PairPlaces plan.now n w u v × (current.place < 2) }
    ensures { Aimed plan.now room.old room.new n w scales u v current result }
{
    let direct = direct_source(plan, n, w, u, v);
    if v - u < w {
        return Aim {
            source: direct,
            current: current,
        };
    }
    let place = propagate(room, plan, n, w, scales, u, v, current);
    let reached = CurrentVector {
        vertex: u,
        reached: v,
        place: place,
    };
    let far = Source {
        f: direct.f,
        g: place,
        b: direct.b,
        d: w,
    };
    Aim {
        source: far,
        current: reached,
    }
}
