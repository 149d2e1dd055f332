// One step of a half vector, or two in one pass, from one place of the room to another.
ghost use Rattle.std.specs.Prelude.{◌≡◌, ◌-◌, ◌^◌, length, drop};
ghost use Rattle.list_laws.specs.Tabulate.{tabulate};
ghost use Rattle.step_tables.specs.Place.{hold};
ghost use Rattle.pair_sums.specs.Stored.{most_if};
ghost use Rattle.pair_sums.specs.Terms.{half_at};
ghost use Rattle.vertex_step.specs.Ready.{Stepping};
ghost use Rattle.vertex_step.specs.Through.{Through, forward_by, backward_by, through};

use crate::tables::tables_at;
use pair_sums::half_stored;
use plan_steps::near_count;
use step_backward::half_backward;
use step_forward::half_forward;
use two_steps_backward::half_stride_backward;
use two_steps_forward::half_stride_forward;

// The forward steps at t and at `last`, or the one at t alone where `last` is t: the first with the scale, the second with the other. `antisymmetric`
// says of which kind the half at place src is; what they make goes to place dst. Their tables stand in the lists, which are lent so that they are
// not cleared for each step. Returns the largest entry of what they wrote where it is due, else 1.0: one step knows it already, and after
// two, whose pass is bound by its arithmetic, a pass of its own is as quick.
pub fn forward_through(
    room: &mut [f64],
    factors: usize,
    plan: &[usize],
    w: usize,
    t: usize,
    last: usize,
    scale: f64,
    then: f64,
    antisymmetric: bool,
    src: usize,
    dst: usize,
    taken: bool,
    bits: &mut [usize; 4],
    up: &mut [f64; 16],
    down: &mut [f64; 16],
    bits2: &mut [usize; 4],
    up2: &mut [f64; 16],
    down2: &mut [f64; 16],
) -> f64
    requires { Stepping plan.now (length room.old) w factors t src dst × Through plan.now (length room.old) w factors t last }
    ensures room_after { room.new ≡ hold room.old w dst
        (tabulate
        (through (forward_by plan.now (drop factors room.old) w antisymmetric) t last scale then (half_at room.old w src))
        (2 ^ (w - 1))) }
    ensures value { result ≡ most_if taken (tabulate (half_at room.new w dst) (2 ^ (w - 1))) }
{
    let ep = tables_at(room, factors, plan, w, t, scale, bits, up, down);
    let em = 1.0 / ep;
    let n = near_count(plan, t);
    if last == t {
        let most = half_forward(room, src, dst, w, ep, em, antisymmetric, bits, n, up, down);
        return if taken { most } else { 1.0 };
    }
    let ep2 = tables_at(room, factors, plan, w, last, then, bits2, up2, down2);
    let n2 = near_count(plan, last);
    half_stride_forward(
        room,
        src,
        dst,
        w,
        antisymmetric,
        ep,
        em,
        bits,
        n,
        up,
        down,
        ep2,
        1.0 / ep2,
        bits2,
        n2,
        up2,
        down2,
    );
    half_stored(room, dst, w, taken)
}

// The backward steps likewise, from a symmetric half. The tables of t, whose step is the first, are the second that the pass over both reads.
pub fn backward_through(
    room: &mut [f64],
    factors: usize,
    plan: &[usize],
    w: usize,
    t: usize,
    last: usize,
    scale: f64,
    then: f64,
    src: usize,
    dst: usize,
    taken: bool,
    bits: &mut [usize; 4],
    up: &mut [f64; 16],
    down: &mut [f64; 16],
    bits2: &mut [usize; 4],
    up2: &mut [f64; 16],
    down2: &mut [f64; 16],
) -> f64
    requires { Stepping plan.now (length room.old) w factors t src dst × Through plan.now (length room.old) w factors t last }
    ensures room_after { room.new ≡ hold room.old w dst
        (tabulate
        (through (backward_by plan.now (drop factors room.old) w) t last scale then (half_at room.old w src))
        (2 ^ (w - 1))) }
    ensures value { result ≡ most_if taken (tabulate (half_at room.new w dst) (2 ^ (w - 1))) }
{
    let ep2 = tables_at(room, factors, plan, w, t, scale, bits2, up2, down2);
    let em2 = 1.0 / ep2;
    let n2 = near_count(plan, t);
    if last == t {
        let most = half_backward(room, src, dst, w, ep2, em2, bits2, n2, up2, down2);
        return if taken { most } else { 1.0 };
    }
    let ep = tables_at(room, factors, plan, w, last, then, bits, up, down);
    let n = near_count(plan, last);
    half_stride_backward(
        room,
        src,
        dst,
        w,
        ep,
        1.0 / ep,
        bits,
        n,
        up,
        down,
        ep2,
        em2,
        bits2,
        n2,
        up2,
        down2,
    );
    half_stored(room, dst, w, taken)
}
