// What follows from the kept edges of a graph, for callers: each entry checks first, and where it refuses it alters no lent list.
ghost use Rattle.std.specs.Prelude.{◌≡◌, false, not, eqb, length, ◌≤◌, OnOk};
ghost use Rattle.limits.specs.Limits.{most_edges};
ghost use Rattle.transfer_matrix.specs.Job.{window_of};
ghost use Rattle.refusals.specs.Edges.{kept, kept_early, kept_late};
ghost use Rattle.refusals.specs.Request.{graph_request, distance_request};
ghost use Rattle.refusals.specs.Refusal.{refusal, of_graph, of_graph_with_buffers, of_distance};
ghost use Rattle.refusals.specs.Numbers.{refused};
ghost use Rattle.refusals.specs.Answers.{Answered, left};
ghost use Rattle.forest.specs.Components.{component_count};
ghost use Rattle.forest.specs.FreeEdges.{free_count, bits_of, ForestBits};
ghost use Rattle.kept_edges.specs.Keep.{KeptEdges};
ghost use Rattle.graph.specs.Graphs.{component_names, measure_of, ComponentMarks};
ghost use Rattle.graph.specs.Reached.{Distanced};

use distance::shortest_walk;
use graph_build::build;
use graph_checks::is_outside;
use kept_edges::window_of;
use limits::EDGES;
use refusals::Refusal;

// What is measured of a graph: its window above a floor, or how many of its edges are free.
#[derive(Drop)]
pub enum Measure {
    Window(usize),
    Free,
}

// The measure of the kept edges.
fn measure_kept(measure: Measure, n: usize, early: &[usize], late: &[usize]) -> usize
    requires { KeptEdges n early.now late.now × (length early.now ≤ most_edges) }
    ensures { result ≡ measure_of measure n early.now late.now }
{
    match measure {
        Measure::Window(floor) => window_of(floor, early, late),
        Measure::Free => forest::count_free_edges(n, early, late),
    }
}

fn measured(
    measure: Measure,
    n: usize,
    a: &[usize],
    b: &[usize],
    m: &[f64],
) -> Result<usize, Refusal>
    ensures { Answered (refusal of_graph (graph_request n a.now b.now m.now false))
        (measure_of measure n (kept_early a.now b.now m.now) (kept_late a.now b.now m.now)) result }
{
    let mut early = [0usize; EDGES];
    let mut late = [0usize; EDGES];
    let mut mag = [0.0f64; EDGES];
    let edges = build(n, a, b, m, &mut early, &mut late, &mut mag)?;
    Ok(measure_kept(measure, n, &early[..edges], &late[..edges]))
}

// The largest of 1, the caller's floor and the longest kept edge; a window above 24 is answered.
pub fn window(n: usize, a: &[usize], b: &[usize], m: &[f64], floor: usize) -> Result<usize, Refusal>
    ensures { Answered (refusal of_graph (graph_request n a.now b.now m.now false))
        (window_of floor (kept_early a.now b.now m.now) (kept_late a.now b.now m.now)) result }
{
    measured(Measure::Window(floor), n, a, b, m)
}

// How many components the graph has, and a mark for the lowest vertex of each: vertex v is bit v mod 64 of word v / 64.
pub fn n_components(
    n: usize,
    a: &[usize],
    b: &[usize],
    m: &[f64],
    marks: &mut [u64; 16],
) -> Result<usize, Refusal>
    ensures value { Answered (refusal of_graph (graph_request n a.now b.now m.now false))
        (component_count n (kept_early a.now b.now m.now) (kept_late a.now b.now m.now)) result }
    ensures component_marks { ComponentMarks (refusal of_graph (graph_request n a.now b.now m.now false))
        n (kept_early a.now b.now m.now) (kept_late a.now b.now m.now)
        marks.old marks.new }
{
    let mut early = [0usize; EDGES];
    let mut late = [0usize; EDGES];
    let mut mag = [0.0f64; EDGES];
    let edges = build(n, a, b, m, &mut early, &mut late, &mut mag)?;
    let marked = components::mark_components(n, &early[..edges], &late[..edges]);
    let words = marked.marks;
    *marks = words;
    Ok(marked.count)
}

// How many edges are free: kept edges and components, less the vertices.
pub fn cyclomatic(n: usize, a: &[usize], b: &[usize], m: &[f64]) -> Result<usize, Refusal>
    ensures { Answered (refusal of_graph (graph_request n a.now b.now m.now false))
        (free_count (kept_early a.now b.now m.now) (kept_late a.now b.now m.now)) result }
{
    measured(Measure::Free, n, a, b, m)
}

// Gives each kept edge that is free its bit of a configuration's number, in edge order from 0, and each tree edge TREE: no path of earlier kept
// edges joins its ends.
pub fn spanning_forest(
    n: usize,
    a: &[usize],
    b: &[usize],
    m: &[f64],
    bits: &mut [usize],
) -> Result<(), Refusal>
    ensures { (refused result ≡ refusal of_graph_with_buffers (graph_request n a.now b.now m.now (not (eqb (length bits.old) (length (kept a.now b.now m.now))))))
        × (bits.new ≡ left (refused result) (bits_of (kept_early a.now b.now m.now) (kept_late a.now b.now m.now)) bits.old)
        × OnOk result (ForestBits n (kept_early a.now b.now m.now) (kept_late a.now b.now m.now) bits.new) }
{
    let mut early = [0usize; EDGES];
    let mut late = [0usize; EDGES];
    let mut mag = [0.0f64; EDGES];
    let edges = build(n, a, b, m, &mut early, &mut late, &mut mag)?;
    if bits.len() != edges {
        return Err(Refusal::Buffer);
    }
    forest::number_free_edges(n, &early[..edges], &late[..edges], bits);
    Ok(())
}

// Names each vertex's component by one of its vertices.
pub fn components(
    n: usize,
    a: &[usize],
    b: &[usize],
    m: &[f64],
    out: &mut [usize],
) -> Result<(), Refusal>
    ensures { (refused result ≡ refusal of_graph_with_buffers (graph_request n a.now b.now m.now (not (eqb (length out.old) n))))
        × (out.new ≡ left (refused result) (component_names n (kept_early a.now b.now m.now) (kept_late a.now b.now m.now)) out.old) }
{
    let mut early = [0usize; EDGES];
    let mut late = [0usize; EDGES];
    let mut mag = [0.0f64; EDGES];
    let edges = build(n, a, b, m, &mut early, &mut late, &mut mag)?;
    if out.len() != n {
        return Err(Refusal::Buffer);
    }
    components::name_components(n, &early[..edges], &late[..edges], out);
    Ok(())
}

// The least number of kept edges on a walk from u to v, if there is one; equal ends are allowed.
pub fn distance(
    n: usize,
    a: &[usize],
    b: &[usize],
    m: &[f64],
    u: usize,
    v: usize,
) -> Result<Option<usize>, Refusal>
    ensures { Distanced (refusal of_distance (distance_request n a.now b.now m.now u v))
        (kept_early a.now b.now m.now) (kept_late a.now b.now m.now) u v result }
{
    let mut early = [0usize; EDGES];
    let mut late = [0usize; EDGES];
    let mut mag = [0.0f64; EDGES];
    let edges = build(n, a, b, m, &mut early, &mut late, &mut mag)?;
    if is_outside(n, u, v) {
        return Err(Refusal::PairEnds);
    }
    Ok(shortest_walk(&early[..edges], &late[..edges], u, v))
}
