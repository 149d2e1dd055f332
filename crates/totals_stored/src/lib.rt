// The correlations of all configurations, stored.
#![tactic(auto)]

mod configuration;

ghost use Rattle.std.specs.Prelude.{◌≡◌, true, not, ℕ, ◌*◌, ◌/◌, ◌%◌, ◌^◌, ◌≤◌, Float, length};
ghost use Rattle.limits.specs.Limits.{most_counted};
ghost use Rattle.list_laws.specs.Search.{some};
ghost use Rattle.list_laws.specs.Tabulate.{tabulate};
ghost use Rattle.transfer_matrix.specs.Job.{Job};
ghost use Rattle.totals_configuration.specs.Signed.{PlanOfRun};
ghost use Rattle.totals_configuration.specs.Powers.{correlation_at, unsound_betas};
ghost use Rattle.totals_configuration.specs.Stage.{Stage, EnoughFactors};
ghost use Rattle.totals_enumerated.specs.Configurations.{Enumerates, enumerated_signs};

use crate::configuration::store_configuration;
use step_tables::pow2;
use totals_configuration::JobShape;
use totals_signs::enumerated_signs;

// Stores the correlation of each beta, pair and configuration. Where there is no beta or no pair, no configuration is looked at. Answers
// whether every Z was finite and above zero; at the first that is not it stops.
pub fn stored_correlations(
    room: &mut [f64],
    plan: &[usize],
    shape: JobShape,
    us: &[usize],
    vs: &[usize],
    order: &[usize],
    factors: &[f64],
    bits: &[usize],
    signs: &mut [bool],
    free: usize,
    c: &mut [f64],
    stored: &mut [f64],
) -> bool
    requires { Stage plan.now us.now vs.now order.now (length bits.now) shape (length room.old) (length c.old)
        × EnoughFactors (length factors.now) (length bits.now) shape.betas × Enumerates bits.now (length signs.old) 0 (2 ^ free) × (free ≤ most_counted)
        × (length stored.old ≡ shape.betas * length us.now * 2 ^ free) }
    ensures { (J : ℕ → ℕ → Job Float) → PlanOfRun J plan.now factors.now (length bits.now) (enumerated_signs bits.now) shape
        → (result ≡ not (some (λ x. unsound_betas (J x) us.now vs.now shape.betas) (2 ^ free)))
        × (result ≡ true → stored.new
        ≡ tabulate (λ k. correlation_at (J (k % 2 ^ free)) us.now vs.now (k / 2 ^ free)) (shape.betas * length us.now * 2 ^ free)) }
{
    if stored.len() == 0 {
        return true;
    }
    let all = pow2(free);
    for x in 0..all {
        enumerated_signs(signs, bits, x);
        if !store_configuration(
            room, plan, shape, us, vs, order, factors, signs, x, all, c, stored,
        ) {
            return false;
        }
    }
    true
}
