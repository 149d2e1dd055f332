// One chunk of configurations.
#![tactic(auto)]

ghost use Rattle.std.specs.Prelude.{◌≡◌, true, not, ℕ, ◌+◌, ◌*◌, Float, length};
ghost use Rattle.list_laws.specs.Search.{some};
ghost use Rattle.transfer_matrix.specs.Job.{Job};
ghost use Rattle.pair_correlations.specs.Sound.{unsound};
ghost use Rattle.totals_configuration.specs.Powers.{pair_at};
ghost use Rattle.totals_configuration.specs.Stage.{Stage, EnoughFactors};
ghost use Rattle.totals_configuration.specs.Sums.{Sums, RunSummed};
ghost use Rattle.totals_enumerated.specs.Configurations.{Enumerates, PlanOfBeta, PlanFrom};

use step_tables::fill;
use totals_configuration::{JobShape, add_beta};
use totals_reuse::standing_from;
use totals_signs::enumerated_signs;

// The sums of `size` configurations from number `first` on at beta b, a number a pair, from zero. Returns whether every Z was finite and
// above zero; at the first that is not it stops. Between configurations few signs change, and most backward vectors stand.
fn enumerated_run(
    room: &mut [f64],
    plan: &[usize],
    shape: JobShape,
    us: &[usize],
    vs: &[usize],
    order: &[usize],
    factors: &[f64],
    b: usize,
    bits: &[usize],
    signs: &mut [bool],
    first: usize,
    size: usize,
    c: &mut [f64],
    squares: &mut [f64],
    fourths: &mut [f64],
) -> bool
    requires { Stage plan.now us.now vs.now order.now (length bits.now) shape (length room.old) (length c.old)
        × EnoughFactors (length factors.now) (length bits.now) (b + 1) × Enumerates bits.now (length signs.old) first size
        × (length squares.old ≡ length us.now) × (length fourths.old ≡ length us.now) }
    ensures { (J : ℕ → Job Float) → PlanOfBeta J plan.now factors.now bits.now first b shape
        → (result ≡ not (some (λ j. unsound (J j) us.now vs.now) size))
        × (result ≡ true → Sums (λ j. pair_at (J j) us.now vs.now) size (length us.now)
        squares.new fourths.new) }
{
    let sums = squares.len();
    fill(squares, 0, sums, 0.0);
    fill(fourths, 0, sums, 0.0);
    for j in 0..size {
        let last = enumerated_signs(signs, bits, first + j);
        let changed = standing_from(plan, shape.n, bits, last, j);
        if !add_beta(
            room, plan, shape, us, vs, order, factors, b, signs, changed, c, squares, fourths,
        ) {
            return false;
        }
    }
    true
}

// The sums of `size` configurations from number `first` on, from zero, beta after beta. Returns whether every Z was finite and above zero;
// at the first that is not it stops.
pub fn enumerated_chunk(
    room: &mut [f64],
    plan: &[usize],
    shape: JobShape,
    us: &[usize],
    vs: &[usize],
    order: &[usize],
    factors: &[f64],
    bits: &[usize],
    signs: &mut [bool],
    first: usize,
    size: usize,
    c: &mut [f64],
    squares: &mut [f64],
    fourths: &mut [f64],
) -> bool
    requires { Stage plan.now us.now vs.now order.now (length bits.now) shape (length room.old) (length c.old)
        × EnoughFactors (length factors.now) (length bits.now) shape.betas × Enumerates bits.now (length signs.old) first size
        × (length squares.old ≡ shape.betas * length us.now) × (length fourths.old ≡ shape.betas * length us.now) }
    ensures { (J : ℕ → ℕ → Job Float) → PlanFrom J plan.now factors.now bits.now first shape
        → RunSummed J us.now vs.now shape.betas size result squares.new fourths.new }
{
    let pairs = us.len();
    for b in 0..shape.betas {
        let at = b * pairs;
        let end = at + pairs;
        if !enumerated_run(
            room,
            plan,
            shape,
            us,
            vs,
            order,
            factors,
            b,
            bits,
            signs,
            first,
            size,
            c,
            &mut squares[at..end],
            &mut fourths[at..end],
        ) {
            return false;
        }
    }
    true
}
