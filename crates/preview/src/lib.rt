// What dropping an edge would do: the window, the free edges and the room of a copy of the job with that magnitude zero. Nothing is copied and
// nothing written.
#![tactic(auto)]

ghost use Rattle.refusals.specs.Edges.{dropping};
ghost use Rattle.plan_layout.specs.Arrangements.{arrangement_of};
ghost use Rattle.preview.specs.Previewed.{Costs, cost_of, preview_of};

use forest::count_free_edges;
use graph_checks::{bad_lists, bad_vertices};
use job_checks::check_dropping;
use limits::{Caller, EDGES};
use plan_layout::{Arrangement, room_needed, takes_less};
use refusals::Refusal;

mod answer;

pub use answer::Figures;

// The figures of the job whose magnitude at `place` is zero, or the first of the checks 1 to 8 that it meets.
fn cost_dropping(
    n: usize,
    floor: usize,
    a: &[usize],
    b: &[usize],
    m: &[f64],
    us: &[usize],
    vs: &[usize],
    betas: &[f64],
    place: usize,
    arrangement: Arrangement,
) -> Result<Figures, Refusal>
    ensures { Costs (cost_of (arrangement_of arrangement) n floor a.now b.now (dropping place m.now)
        us.now vs.now betas.now) result }
{
    let mut early = [0usize; EDGES];
    let mut late = [0usize; EDGES];
    let mut mag = [0.0f64; EDGES];
    let job = check_dropping(
        Caller::Desk,
        n,
        floor,
        a,
        b,
        m,
        place,
        us,
        vs,
        betas,
        &mut early,
        &mut late,
        &mut mag,
    )?;
    let edges = job.edges;
    let free = count_free_edges(n, &early[..edges], &late[..edges]);
    let less = takes_less(arrangement);
    let room = room_needed(less, n, job.window, edges, us, vs);
    Ok(Figures {
        window: job.window,
        free,
        room,
    })
}

// What the job would come to if the edge at `place` of the raw list were dropped. An edge that is dropped already changes nothing.
pub fn preview(
    n: usize,
    floor: usize,
    a: &[usize],
    b: &[usize],
    m: &[f64],
    us: &[usize],
    vs: &[usize],
    betas: &[f64],
    place: usize,
    arrangement: Arrangement,
) -> Result<Figures, Refusal>
    ensures { Costs (preview_of place (arrangement_of arrangement) n floor a.now b.now m.now us.now
        vs.now betas.now) result }
{
    if bad_vertices(n) {
        return Err(Refusal::VertexCount);
    }
    if bad_lists(a.len(), b.len(), m.len(), us.len(), vs.len(), betas.len()) {
        return Err(Refusal::ListLengths);
    }
    if a.len() <= place {
        return Err(Refusal::EdgePlace);
    }
    cost_dropping(n, floor, a, b, m, us, vs, betas, place, arrangement)
}
