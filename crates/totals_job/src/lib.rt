// A call for totals that passed its checks: from its kept edges to the totals.
#![tactic(auto)]

ghost use Rattle.std.specs.Prelude.{◌≡◌, ◌*◌, length};
ghost use Rattle.transfer_matrix.specs.Room.{arranged};
ghost use Rattle.totals_call.specs.Finished.{Passed, Numbered, stepping, TotalsAre};

use job_run::clear;
use pair_order::order_pairs;
use plan_layout::make_plan;
use totals_call::{EDGES, PAIRS, PLAN, SUMS, clear_unsound};
use totals_chunks::{Chunks, chunked_totals};
use totals_configuration::JobShape;

// The totals of chunks of configurations, with the room at +0.0 after: plans the job, orders its pairs, adds up and clears. Drawn
// configurations read no bit. Returns whether every Z was finite and above zero; where one is not, all totals are +0.0.
pub fn total_job(
    n: usize,
    w: usize,
    elementwise: bool,
    less: bool,
    early: &[usize],
    late: &[usize],
    bits: &[usize],
    us: &[usize],
    vs: &[usize],
    factors: &[f64],
    betas: usize,
    chunks: Chunks,
    squares: &mut [f64],
    fourths: &mut [f64],
    work: &mut [f64],
) -> bool
    requires { Passed (arranged less) n w early.now late.now us.now vs.now (length factors.now) betas (length work.old)
        × Numbered chunks early.now late.now bits.now
        × (length squares.old ≡ betas * length us.now) × (length fourths.old ≡ betas * length us.now) }
    ensures { TotalsAre n w early.now late.now factors.now (stepping elementwise) us.now
        vs.now betas chunks (arranged less) (length early.now) result squares.new fourths.new work.old work.new }
{
    let mut plan = [0usize; PLAN];
    let mut orders = [0usize; PAIRS];
    let mut signs = [false; EDGES];
    let mut c = [0.0f64; PAIRS];
    let mut subsquares = [0.0f64; SUMS];
    let mut subfourths = [0.0f64; SUMS];
    let pairs = us.len();
    let edges = early.len();
    let sums = squares.len();
    let order = &mut orders[..pairs];
    let layout = make_plan(&mut plan, less, n, w, early, late, us, vs);
    order_pairs(order, n, w, us, vs);
    let shape = JobShape {
        n,
        w,
        scales: layout.scales,
        elementwise,
        less,
        betas,
    };
    let end = layout.room;
    let room = &mut work[..end];
    let sound = chunked_totals(
        room,
        &plan,
        shape,
        us,
        vs,
        order,
        factors,
        bits,
        &mut signs[..edges],
        chunks,
        &mut c[..pairs],
        &mut subsquares[..sums],
        &mut subfourths[..sums],
        squares,
        fourths,
    );
    clear(room);
    clear_unsound(sound, squares);
    clear_unsound(sound, fourths);
    sound
}
