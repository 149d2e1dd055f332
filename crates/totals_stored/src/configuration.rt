// One configuration: its correlations at every beta, each to its own place.
ghost use Rattle.std.specs.Prelude.{◌≡◌, true, not, ℕ, ◌+◌, ◌*◌, ◌≤◌, ◌<◌, Float, length, get_or};
ghost use Rattle.std.specs.Float.{nan};
ghost use Rattle.transfer_matrix.specs.Job.{Job};
ghost use Rattle.totals_configuration.specs.Signed.{PlanOfAll};
ghost use Rattle.totals_configuration.specs.Powers.{correlation_at, unsound_betas};
ghost use Rattle.totals_configuration.specs.Stage.{Stage, EnoughFactors};
ghost use Rattle.totals_stored.specs.Stored.{Stored};

use totals_configuration::{JobShape, answer_signed};

// The results of configuration x, of `all`, to the numbers from `first` on.
fn store_results(stored: &mut [f64], all: usize, x: usize, first: usize, c: &[f64])
    requires { (x < all) × ((first + length c.now) * all ≤ length stored.old) }
    ensures { (value : ℕ → ℕ → Float) (n : ℕ) → ((p : ℕ) → p < length c.now → get_or c.now p nan ≡ value x (first + p))
        → Stored value all n x first stored.old → Stored value all n x (first + length c.now) stored.new }
{
    for p in 0..c.len() {
        stored[(first + p) * all + x] = c[p];
    }
}

// Stores the correlations of configuration x, of `all`, at the first `betas` betas. Returns whether every Z was finite and above zero; at
// the first that is not it stops.
pub(crate) fn store_configuration(
    room: &mut [f64],
    plan: &[usize],
    shape: JobShape,
    us: &[usize],
    vs: &[usize],
    order: &[usize],
    factors: &[f64],
    signs: &[bool],
    x: usize,
    all: usize,
    c: &mut [f64],
    stored: &mut [f64],
) -> bool
    requires { Stage plan.now us.now vs.now order.now (length signs.now) shape (length room.old) (length c.old)
        × EnoughFactors (length factors.now) (length signs.now) shape.betas × (x < all) × (length stored.old ≡ shape.betas * length us.now * all) }
    ensures { (J : ℕ → Job Float) → PlanOfAll J plan.now factors.now (length signs.now) signs.now shape
        → (result ≡ not (unsound_betas J us.now vs.now shape.betas))
        × (result ≡ true → (value : ℕ → ℕ → Float)
        → ((k : ℕ) → k < shape.betas * length us.now → correlation_at J us.now vs.now k ≡ value x k)
        → Stored value all (shape.betas * length us.now) x 0 stored.old
        → Stored value all (shape.betas * length us.now) x (shape.betas * length us.now) stored.new) }
{
    for b in 0..shape.betas {
        if !answer_signed(
            room, plan, shape, us, vs, order, factors, b, signs, shape.n, c,
        ) {
            return false;
        }
        store_results(stored, all, x, b * us.len(), c);
    }
    true
}
