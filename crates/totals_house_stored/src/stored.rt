// The stored correlations of a house call that passed its checks.
ghost use Rattle.std.specs.Prelude.{◌≡◌, true, not, ℕ, ◌*◌, ◌/◌, ◌%◌, ◌^◌, ◌≤◌, Float, length};
ghost use Rattle.limits.specs.Limits.{most_betas, most_pairs, most_edges, most_stored};
ghost use Rattle.list_laws.specs.Search.{some};
ghost use Rattle.list_laws.specs.Tabulate.{tabulate};
ghost use Rattle.forest.specs.FreeEdges.{free_count, bits_of};
ghost use Rattle.transfer_matrix.specs.Job.{Job};
ghost use Rattle.transfer_matrix.specs.Room.{arranged};
ghost use Rattle.refusals.specs.Couplings.{all_couplings};
ghost use Rattle.house_factors.specs.Factors.{paired_factors};
ghost use Rattle.totals_configuration.specs.Powers.{correlation_at, unsound_betas};
ghost use Rattle.totals_configuration.specs.Stage.{Stage};
ghost use Rattle.totals_enumerated.specs.Configurations.{Enumerates};
ghost use Rattle.totals_call.specs.Finished.{stepping, StoredAre};
ghost use Rattle.totals_house_betas.specs.Betas.{HousePassed, OnGrid, PlanOfNumbers};

use house_table::table;
use job_run::clear;
use pair_order::order_pairs;
use plan_layout::make_plan;
use step_tables::pow2;
use totals_call::{EDGES, PAIRS, PLAN, clear_unsound};
use totals_configuration::JobShape;
use totals_house_betas::{FACTORS, lay_beta};
use totals_stored::stored_correlations;

// Stores the correlation of each pair and configuration at each beta, one beta after another; the shape is that of a job with one beta.
// Returns whether every Z was finite and above zero; at the first beta where one is not it stops.
fn store_betas(
    room: &mut [f64],
    plan: &[usize],
    shape: JobShape,
    us: &[usize],
    vs: &[usize],
    order: &[usize],
    mag: &[f64],
    betas: &[f64],
    factors: &mut [f64],
    bits: &[usize],
    signs: &mut [bool],
    free: usize,
    c: &mut [f64],
    stored: &mut [f64],
) -> bool
    requires { Stage plan.now us.now vs.now order.now (length bits.now) shape (length room.old) (length c.old) × (shape.betas ≡ 1)
        × Enumerates bits.now (length signs.old) 0 (2 ^ free) × (free ≤ most_stored) × (length mag.now ≡ length bits.now) × (length mag.now ≤ most_edges)
        × (length factors.old ≡ 2 * length mag.now) × OnGrid betas.now mag.now × (length betas.now ≤ most_betas) × (length us.now ≤ most_pairs)
        × (length stored.old ≡ length betas.now * length us.now * 2 ^ free) }
    ensures { (J : ℕ → ℕ → Job Float) → PlanOfNumbers J plan.now mag.now betas.now bits.now shape
        → (result ≡ not (some (λ x. unsound_betas (J x) us.now vs.now (length betas.now)) (2 ^ free)))
        × (result ≡ true → stored.new ≡ tabulate (λ k. correlation_at (J (k % 2 ^ free)) us.now vs.now (k / 2 ^ free))
        (length betas.now * length us.now * 2 ^ free)) }
{
    let entries = table();
    let row = us.len() * pow2(free);
    for b in 0..betas.len() {
        lay_beta(&entries, betas[b], mag, factors);
        let at = b * row;
        let end = at + row;
        if !stored_correlations(
            room,
            plan,
            shape,
            us,
            vs,
            order,
            factors,
            bits,
            signs,
            free,
            c,
            &mut stored[at..end],
        ) {
            return false;
        }
    }
    true
}

// The correlations of all configurations, with the room at +0.0 after: plans the job, orders its pairs, stores and clears. Returns whether every
// Z was finite and above zero; where one is not, all are +0.0.
pub fn store_house_job(
    n: usize,
    w: usize,
    elementwise: bool,
    less: bool,
    early: &[usize],
    late: &[usize],
    mag: &[f64],
    bits: &[usize],
    us: &[usize],
    vs: &[usize],
    betas: &[f64],
    free: usize,
    stored: &mut [f64],
    work: &mut [f64],
) -> bool
    requires { HousePassed (arranged less) n w early.now late.now us.now vs.now mag.now betas.now (length work.old)
        × (free ≡ free_count early.now late.now) × (free ≤ most_stored) × (bits.now ≡ bits_of early.now late.now)
        × (length stored.old ≡ length betas.now * length us.now * 2 ^ free) }
    ensures { StoredAre n w early.now late.now (paired_factors (all_couplings betas.now mag.now))
        (stepping elementwise) us.now vs.now (length betas.now) (length betas.now * length us.now * 2 ^ free)
        (arranged less) (length early.now) result stored.new work.old work.new }
{
    let mut plan = [0usize; PLAN];
    let mut orders = [0usize; PAIRS];
    let mut factors = [0.0f64; FACTORS];
    let mut signs = [false; EDGES];
    let mut c = [0.0f64; PAIRS];
    let pairs = us.len();
    let edges = early.len();
    let order = &mut orders[..pairs];
    let layout = make_plan(&mut plan, less, n, w, early, late, us, vs);
    order_pairs(order, n, w, us, vs);
    let shape = JobShape {
        n,
        w,
        scales: layout.scales,
        elementwise,
        less,
        betas: 1,
    };
    let end = layout.room;
    let room = &mut work[..end];
    let laid = 2 * edges;
    let sound = store_betas(
        room,
        &plan,
        shape,
        us,
        vs,
        order,
        mag,
        betas,
        &mut factors[..laid],
        bits,
        &mut signs[..edges],
        free,
        &mut c[..pairs],
        stored,
    );
    clear(room);
    clear_unsound(sound, stored);
    sound
}
