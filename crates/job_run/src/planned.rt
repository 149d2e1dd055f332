// The run of a planned job over its room.
ghost use Rattle.std.specs.Prelude.{◌≡◌, cond, not, ◌+◌, ◌≤◌, Float, length, drop};
ghost use Rattle.list_laws.specs.Part.{put};
ghost use Rattle.transfer_matrix.specs.Job.{Job};
ghost use Rattle.transfer_matrix.specs.Rounded.{ieee};
ghost use Rattle.transfer_matrix.specs.Sweep as S;
ghost use Rattle.pair_order.specs.Order.{InOrder};
ghost use Rattle.vertex_step.specs.Ready.{Ready, PlanOf};
ghost use Rattle.pair_correlations.specs.Served.{Served};
ghost use Rattle.pair_correlations.specs.Sound.{unsound};
ghost use Rattle.job_run.specs.Zeros.{zeros};

use step_tables::fill;
use sweeps::sweep_and_answer;

// The factors x to the room, from `at` on.
pub fn lay_factors(room: &mut [f64], at: usize, x: &[f64])
    requires { at + length x.now ≤ length room.old }
    ensures { room.new ≡ put room.old at x.now }
{
    for (e, f) in x.iter().enumerate() {
        room[at + e] = *f;
    }
}

// All of a list at +0.0.
pub fn clear(list: &mut [f64])
    ensures { list.new ≡ zeros (length list.old) }
{
    let len = list.len();
    fill(list, 0, len, 0.0);
}

// Sweeps, answers the pairs, and clears the room; `less`: with less room. Returns whether every pair's Z is finite and above zero; where one is
// not, all results are +0.0.
pub fn run(
    room: &mut [f64],
    plan: &[usize],
    n: usize,
    w: usize,
    scales: usize,
    elementwise: bool,
    less: bool,
    us: &[usize],
    vs: &[usize],
    order: &[usize],
    results: &mut [f64],
) -> bool
    requires { (1 ≤ n) × Ready plan.now (length room.old) n w scales × Served plan.now us.now vs.now n w less
        × InOrder order.now us.now vs.now w × (length results.old ≡ length us.now) }
    ensures room_after { room.new ≡ zeros (length room.old) }
    ensures value { (J : Job Float) → PlanOf J plan.now (drop (scales + n) room.old) n w elementwise
        → (result ≡ not (unsound J us.now vs.now))
        × (results.new ≡ cond result (S.answers ieee J us.now vs.now) (zeros (length us.now))) }
{
    let sound = sweep_and_answer(
        room,
        plan,
        n,
        w,
        scales,
        elementwise,
        less,
        n,
        us,
        vs,
        order,
        results,
    );
    clear(room);
    if !sound {
        clear(results);
    }
    sound
}
