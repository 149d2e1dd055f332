// One configuration: its correlations at every beta, and their powers.
ghost use Rattle.std.specs.Prelude.{◌≡◌, true, not, ℕ, ◌+◌, ◌*◌, Float, length};
ghost use Rattle.transfer_matrix.specs.Job.{Job};
ghost use Rattle.vertex_step.specs.Ready.{Backward};
ghost use Rattle.sweep_places.specs.Begun.{Stands};
ghost use Rattle.pair_correlations.specs.Sound.{Outcome};
ghost use Rattle.totals_configuration.specs.Signed.{PlanOfSigns, PlanOfAll};
ghost use Rattle.totals_configuration.specs.Powers.{correlation_at, unsound_betas, AddedPowers, AddedBeta};
ghost use Rattle.totals_configuration.specs.Stage.{Stage, EnoughFactors};

use crate::JobShape;
use sweeps::sweep_and_answer;
use totals_signs::lay_signed;
use totals_sums::add_powers;

// The correlations at beta b, with these signs. Returns whether every pair's Z is finite and above zero. The kept backward vectors from
// vertex `changed` on stand already; none does where `changed` is the last vertex or more.
pub fn answer_signed(
    room: &mut [f64],
    plan: &[usize],
    shape: JobShape,
    us: &[usize],
    vs: &[usize],
    order: &[usize],
    factors: &[f64],
    b: usize,
    signs: &[bool],
    changed: usize,
    c: &mut [f64],
) -> bool
    requires { Stage plan.now us.now vs.now order.now (length signs.now) shape (length room.old) (length c.old)
        × EnoughFactors (length factors.now) (length signs.now) (b + 1) }
    ensures { (J : Job Float) → PlanOfSigns J plan.now factors.now (length signs.now) b signs.now shape
        → Stands J plan.now room.old shape.n shape.w changed
        → Outcome J us.now vs.now c.new result × Backward J plan.now room.new shape.n shape.w 0 }
{
    lay_signed(room, shape.scales + shape.n, factors, b, signs);
    sweep_and_answer(
        room,
        plan,
        shape.n,
        shape.w,
        shape.scales,
        shape.elementwise,
        shape.less,
        changed,
        us,
        vs,
        order,
        c,
    )
}

// Adds the powers of a configuration's correlations at beta b to two lists of a number a pair. Returns whether every Z was finite and above
// zero. `changed` is as in `answer_signed`.
pub fn add_beta(
    room: &mut [f64],
    plan: &[usize],
    shape: JobShape,
    us: &[usize],
    vs: &[usize],
    order: &[usize],
    factors: &[f64],
    b: usize,
    signs: &[bool],
    changed: usize,
    c: &mut [f64],
    squares: &mut [f64],
    fourths: &mut [f64],
) -> bool
    requires { Stage plan.now us.now vs.now order.now (length signs.now) shape (length room.old) (length c.old)
        × EnoughFactors (length factors.now) (length signs.now) (b + 1)
        × (length squares.old ≡ length us.now) × (length fourths.old ≡ length us.now) }
    ensures { (J : Job Float) → PlanOfSigns J plan.now factors.now (length signs.now) b signs.now shape
        → Stands J plan.now room.old shape.n shape.w changed
        → AddedBeta J plan.now us.now vs.now room.new shape.n shape.w result
        squares.old squares.new fourths.old fourths.new }
{
    if !answer_signed(
        room, plan, shape, us, vs, order, factors, b, signs, changed, c,
    ) {
        return false;
    }
    add_powers(squares, fourths, 0, c);
    true
}

// Adds the powers of a configuration's correlations, at the first `betas` betas, to a chunk's sums. Returns whether every Z was finite and
// above zero; at the first that is not it stops.
pub fn add_configuration(
    room: &mut [f64],
    plan: &[usize],
    shape: JobShape,
    us: &[usize],
    vs: &[usize],
    order: &[usize],
    factors: &[f64],
    signs: &[bool],
    c: &mut [f64],
    squares: &mut [f64],
    fourths: &mut [f64],
) -> bool
    requires { Stage plan.now us.now vs.now order.now (length signs.now) shape (length room.old) (length c.old)
        × EnoughFactors (length factors.now) (length signs.now) shape.betas
        × (length squares.old ≡ shape.betas * length us.now) × (length fourths.old ≡ shape.betas * length us.now) }
    ensures { (J : ℕ → Job Float) → PlanOfAll J plan.now factors.now (length signs.now) signs.now shape
        → (result ≡ not (unsound_betas J us.now vs.now shape.betas))
        × (result ≡ true → AddedPowers (correlation_at J us.now vs.now) (shape.betas * length us.now)
        squares.old squares.new fourths.old fourths.new) }
{
    for b in 0..shape.betas {
        if !answer_signed(
            room, plan, shape, us, vs, order, factors, b, signs, shape.n, c,
        ) {
            return false;
        }
        add_powers(squares, fourths, b * us.len(), c);
    }
    true
}
