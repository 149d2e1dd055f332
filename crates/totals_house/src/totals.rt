// The totals of a house call that passed its checks.
ghost use Rattle.std.specs.Prelude.{◌≡◌, ℕ, ◌*◌, ◌≤◌, Float, length};
ghost use Rattle.limits.specs.Limits.{most_betas, most_pairs, most_edges};
ghost use Rattle.transfer_matrix.specs.Job.{Job};
ghost use Rattle.transfer_matrix.specs.Room.{arranged};
ghost use Rattle.refusals.specs.Couplings.{all_couplings};
ghost use Rattle.house_factors.specs.Factors.{paired_factors};
ghost use Rattle.totals_configuration.specs.Chunked.{Lists};
ghost use Rattle.totals_configuration.specs.Stage.{Stage};
ghost use Rattle.totals_chunks.specs.Totals.{Summable, ChunksSummed};
ghost use Rattle.totals_call.specs.Finished.{Numbered, stepping, TotalsAre};
ghost use Rattle.totals_house_betas.specs.Betas.{HousePassed, OnGrid, PlanOfBetas};

use house_table::table;
use job_run::clear;
use pair_order::order_pairs;
use plan_layout::make_plan;
use totals_call::{EDGES, PAIRS, PLAN, clear_unsound};
use totals_chunks::{Chunks, chunked_totals};
use totals_configuration::JobShape;
use totals_house_betas::{FACTORS, lay_beta};

// The totals of chunks of configurations at each beta, one beta after another; the shape is that of a job with one beta. `factors` holds those
// of the current beta. Returns whether every Z was finite and above zero; at the first beta where one is not it stops.
fn total_betas(
    room: &mut [f64],
    plan: &[usize],
    shape: JobShape,
    us: &[usize],
    vs: &[usize],
    order: &[usize],
    mag: &[f64],
    betas: &[f64],
    factors: &mut [f64],
    bits: &[usize],
    signs: &mut [bool],
    chunks: Chunks,
    c: &mut [f64],
    subsquares: &mut [f64],
    subfourths: &mut [f64],
    squares: &mut [f64],
    fourths: &mut [f64],
) -> bool
    requires { Stage plan.now us.now vs.now order.now (length bits.now) shape (length room.old) (length c.old) × (shape.betas ≡ 1)
        × Summable chunks bits.now (length signs.old) × (length mag.now ≡ length bits.now) × (length mag.now ≤ most_edges)
        × (length factors.old ≡ 2 * length mag.now) × OnGrid betas.now mag.now × (length betas.now ≤ most_betas) × (length us.now ≤ most_pairs)
        × Lists (length us.now) (length subsquares.old) (length subfourths.old) (length us.now) (length us.now)
        × (length squares.old ≡ length betas.now * length us.now) × (length fourths.old ≡ length betas.now * length us.now) }
    ensures { (J : ℕ → ℕ → ℕ → Job Float) → PlanOfBetas J plan.now mag.now betas.now bits.now chunks shape
        → ChunksSummed J us.now vs.now (length betas.now) chunks result squares.new fourths.new }
{
    let entries = table();
    let pairs = us.len();
    for b in 0..betas.len() {
        lay_beta(&entries, betas[b], mag, factors);
        let at = b * pairs;
        let end = at + pairs;
        if !chunked_totals(
            room,
            plan,
            shape,
            us,
            vs,
            order,
            factors,
            bits,
            signs,
            chunks,
            c,
            subsquares,
            subfourths,
            &mut squares[at..end],
            &mut fourths[at..end],
        ) {
            return false;
        }
    }
    true
}

// The totals of chunks of configurations, with the room at +0.0 after: plans the job, orders its pairs, adds up and clears. Drawn
// configurations read no bit. Returns whether every Z was finite and above zero; where one is not, all totals are +0.0.
pub fn total_house_job(
    n: usize,
    w: usize,
    elementwise: bool,
    less: bool,
    early: &[usize],
    late: &[usize],
    mag: &[f64],
    bits: &[usize],
    us: &[usize],
    vs: &[usize],
    betas: &[f64],
    chunks: Chunks,
    squares: &mut [f64],
    fourths: &mut [f64],
    work: &mut [f64],
) -> bool
    requires { HousePassed (arranged less) n w early.now late.now us.now vs.now mag.now betas.now (length work.old)
        × Numbered chunks early.now late.now bits.now
        × (length squares.old ≡ length betas.now * length us.now) × (length fourths.old ≡ length betas.now * length us.now) }
    ensures { TotalsAre n w early.now late.now (paired_factors (all_couplings betas.now mag.now))
        (stepping elementwise) us.now vs.now (length betas.now) chunks (arranged less) (length early.now) result
        squares.new fourths.new work.old work.new }
{
    let mut plan = [0usize; PLAN];
    let mut orders = [0usize; PAIRS];
    let mut factors = [0.0f64; FACTORS];
    let mut signs = [false; EDGES];
    let mut c = [0.0f64; PAIRS];
    let mut subsquares = [0.0f64; PAIRS];
    let mut subfourths = [0.0f64; PAIRS];
    let pairs = us.len();
    let edges = early.len();
    let order = &mut orders[..pairs];
    let layout = make_plan(&mut plan, less, n, w, early, late, us, vs);
    order_pairs(order, n, w, us, vs);
    let shape = JobShape {
        n,
        w,
        scales: layout.scales,
        elementwise,
        less,
        betas: 1,
    };
    let end = layout.room;
    let room = &mut work[..end];
    let laid = 2 * edges;
    let sound = total_betas(
        room,
        &plan,
        shape,
        us,
        vs,
        order,
        mag,
        betas,
        &mut factors[..laid],
        bits,
        &mut signs[..edges],
        chunks,
        &mut c[..pairs],
        &mut subsquares[..pairs],
        &mut subfourths[..pairs],
        squares,
        fourths,
    );
    clear(room);
    clear_unsound(sound, squares);
    clear_unsound(sound, fourths);
    sound
}
