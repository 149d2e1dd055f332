// One chunk of samples.
#![tactic(auto)]

ghost use Rattle.std.specs.Prelude.{◌≡◌, ℕ, ◌*◌, Float, length};
ghost use Rattle.transfer_matrix.specs.Job.{Job};
ghost use Rattle.totals_configuration.specs.Stage.{Stage, EnoughFactors};
ghost use Rattle.totals_configuration.specs.Sums.{RunSummed};
ghost use Rattle.totals_sampled.specs.Samples.{PlanOfSamples};

use rng::Rng;
use step_tables::fill;
use totals_configuration::{JobShape, add_configuration};
use totals_signs::sampled_signs;

// The sums of the samples of a chunk, from zero: chunk number c uses the stream of the seed and c. Returns whether every Z was finite and
// above zero; at the first that is not it stops.
pub fn sampled_chunk(
    room: &mut [f64],
    plan: &[usize],
    shape: JobShape,
    us: &[usize],
    vs: &[usize],
    order: &[usize],
    factors: &[f64],
    seed: u64,
    chunk: u64,
    samples: usize,
    signs: &mut [bool],
    c: &mut [f64],
    squares: &mut [f64],
    fourths: &mut [f64],
) -> bool
    requires { Stage plan.now us.now vs.now order.now (length signs.old) shape (length room.old) (length c.old)
        × EnoughFactors (length factors.now) (length signs.old) shape.betas
        × (length squares.old ≡ shape.betas * length us.now) × (length fourths.old ≡ shape.betas * length us.now) }
    ensures { (J : ℕ → ℕ → Job Float)
        → PlanOfSamples J plan.now factors.now (length signs.old) seed chunk shape
        → RunSummed J us.now vs.now shape.betas samples result squares.new fourths.new }
{
    let sums = squares.len();
    fill(squares, 0, sums, 0.0);
    fill(fourths, 0, sums, 0.0);
    let mut rng = Rng::stream(seed, chunk);
    for j in 0..samples {
        rng = sampled_signs(signs, rng);
        if !add_configuration(
            room, plan, shape, us, vs, order, factors, signs, c, squares, fourths,
        ) {
            return false;
        }
    }
    true
}
