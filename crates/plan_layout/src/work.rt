// How the work memory is laid out, and how much of it a call needs.
ghost use Rattle.std.specs.Prelude.{◌≡◌, false, ◌≤◌, length};
ghost use Rattle.limits.specs.Limits.{most_edges, most_vertices, most_window};
ghost use Rattle.transfer_matrix.specs.Job.{too_many_near};
ghost use Rattle.transfer_matrix.specs.Configuration.{numbered};
ghost use Rattle.transfer_matrix.specs.Room.{arranged, room as room_of};
ghost use Rattle.plan_steps.specs.Layout.{Holds};
ghost use Rattle.plan_steps.specs.Edges.{Edges};
ghost use Rattle.pair_places.specs.Places.{Pairs};
ghost use Rattle.plan_layout.specs.Work.{Laid, Planned};

use pair_places::{count_places, plan_places};
use plan_steps::plan_edges;
use step_tables::pow2;

// The number of places, where the scales and the factors begin, and the room.
#[derive(Drop)]
pub struct Work {
    pub places: usize,
    pub scales: usize,
    pub factors: usize,
    pub room: usize,
}

// The places first, a vector of 2^w numbers each, then the scales of the vertices, then the factors of the m edges.
fn work_of(places: usize, n: usize, w: usize, m: usize) -> Work
    requires { (places ≤ 2050) × (n ≤ most_vertices) × (w ≤ most_window) × (m ≤ most_edges) }
    ensures { (result.places ≡ places) × Laid n w m result.places result.scales result.factors result.room }
{
    let scales = places * pow2(w);
    let factors = scales + n;
    let room = factors + m;
    Work {
        places,
        scales,
        factors,
        room,
    }
}

// The doubles of work memory that a call needs.
pub fn room_needed(less: bool, n: usize, w: usize, m: usize, us: &[usize], vs: &[usize]) -> usize
    requires { Pairs us.now vs.now n × (n ≤ most_vertices) × (w ≤ most_window) × (m ≤ most_edges) }
    ensures { result ≡ room_of (arranged less) n w m us.now vs.now }
{
    let places = count_places(less, n, w, us, vs);
    let work = work_of(places, n, w, m);
    work.room
}

// The plan of a job: its steps, and the places of the vectors that its pairs need. Returns the layout of the work memory.
pub fn make_plan(
    plan: &mut [usize],
    less: bool,
    n: usize,
    w: usize,
    early: &[usize],
    late: &[usize],
    us: &[usize],
    vs: &[usize],
) -> Work
    requires { Edges early.now late.now n w × (length early.now ≤ most_edges) × Pairs us.now vs.now n × Holds plan.old n
        × (too_many_near n w (numbered early.now late.now) ≡ false) }
    ensures { Planned (arranged less) plan.new early.now late.now us.now vs.now n w
        result.places result.scales result.factors result.room }
{
    plan_edges(plan, n, w, early, late);
    let places = plan_places(plan, less, n, w, us, vs);
    work_of(places, n, w, early.len())
}
