// An enumeration that passed its checks: from its kept edges to every correlation, stored.
ghost use Rattle.std.specs.Prelude.{◌≡◌, ◌*◌, ◌^◌, ◌≤◌, length};
ghost use Rattle.limits.specs.Limits.{most_counted};
ghost use Rattle.forest.specs.FreeEdges.{free_count, bits_of};
ghost use Rattle.transfer_matrix.specs.Room.{arranged};
ghost use Rattle.totals_call.specs.Finished.{Passed, stepping, StoredAre};

use job_run::clear;
use pair_order::order_pairs;
use plan_layout::make_plan;
use totals_call::{EDGES, PAIRS, PLAN, clear_unsound};
use totals_configuration::JobShape;
use totals_stored::stored_correlations;

// The correlations of all configurations, with the room at +0.0 after: plans the job, orders its pairs, stores and clears. Returns whether every Z was finite and above zero; where one is not, all are +0.0.
pub(crate) fn store_job(
    n: usize,
    w: usize,
    elementwise: bool,
    less: bool,
    early: &[usize],
    late: &[usize],
    bits: &[usize],
    us: &[usize],
    vs: &[usize],
    factors: &[f64],
    betas: usize,
    free: usize,
    stored: &mut [f64],
    work: &mut [f64],
) -> bool
    requires { Passed (arranged less) n w early.now late.now us.now vs.now (length factors.now) betas (length work.old)
        × (free ≡ free_count early.now late.now) × (free ≤ most_counted) × (bits.now ≡ bits_of early.now late.now)
        × (length stored.old ≡ betas * length us.now * 2 ^ free) }
    ensures { StoredAre n w early.now late.now factors.now (stepping elementwise) us.now
        vs.now betas (betas * length us.now * 2 ^ free) (arranged less) (length early.now) result stored.new
        work.old work.new }
{
    let mut plan = [0usize; PLAN];
    let mut orders = [0usize; PAIRS];
    let mut signs = [false; EDGES];
    let mut c = [0.0f64; PAIRS];
    let pairs = us.len();
    let edges = early.len();
    let order = &mut orders[..pairs];
    let layout = make_plan(&mut plan, less, n, w, early, late, us, vs);
    order_pairs(order, n, w, us, vs);
    let shape = JobShape {
        n,
        w,
        scales: layout.scales,
        elementwise,
        less,
        betas,
    };
    let end = layout.room;
    let room = &mut work[..end];
    let sound = stored_correlations(
        room,
        &plan,
        shape,
        us,
        vs,
        order,
        factors,
        bits,
        &mut signs[..edges],
        free,
        &mut c[..pairs],
        stored,
    );
    clear(room);
    clear_unsound(sound, stored);
    sound
}
