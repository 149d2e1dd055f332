// The kept edges of a graph as lists, for callers: as they are, or turned by 180 degrees. Where a call is refused it alters no lent list.
#![tactic(auto)]

ghost use Rattle.std.specs.Prelude.{◌≡◌, ◌||◌, ltb, ℕ, ◌≤◌, ◌<◌, length, get_or};
ghost use Rattle.refusals.specs.Edges.{kept};
ghost use Rattle.refusals.specs.Numbers.{refused};
ghost use Rattle.refusals.specs.Request.{graph_request};
ghost use Rattle.refusals.specs.Refusal.{refusal, of_graph_with_buffers};
ghost use Rattle.graph_edges.specs.Graphs.{too_short, WrittenKept, Set, rotate, Turned};

use graph_build::build;
use kept_edges::keep::{keep, keep_places};
use kept_edges::window_of;
use limits::EDGES;
use refusals::Refusal;

// A graph whose kept edges stand in lists beside it.
#[derive(Drop)]
pub struct Graph {
    pub n: usize,
    pub win: usize,
    pub edges: usize,
}

impl Graph {
    // The kept edges and their raw places to the fronts of four lists, and the graph that they make.
    pub fn new(
        n: usize,
        floor: usize,
        a: &[usize],
        b: &[usize],
        m: &[f64],
        early: &mut [usize],
        late: &mut [usize],
        mag: &mut [f64],
        raw: &mut [usize],
    ) -> Result<Graph, Refusal>
        ensures { Set (refusal of_graph_with_buffers (graph_request n a.now b.now m.now
            (too_short (length (kept a.now b.now m.now)) early.old late.old mag.old raw.old)))
            n floor (kept a.now b.now m.now) result
            early.old early.new late.old late.new mag.old mag.new raw.old raw.new }
    {
        let mut first = [0usize; EDGES];
        let mut second = [0usize; EDGES];
        let mut size = [0.0f64; EDGES];
        let edges = build(n, a, b, m, &mut first, &mut second, &mut size)?;
        let win = window_of(floor, &first[..edges], &second[..edges]);
        write_kept(edges, a, b, m, early, late, mag, raw)?;
        Ok(Graph { n, win, edges })
    }

    // The graph turned by 180 degrees, v to n - 1 - v; its edges keep their order, magnitudes, raw places and window.
    pub fn rotated(
        n: usize,
        floor: usize,
        a: &[usize],
        b: &[usize],
        m: &[f64],
        early: &mut [usize],
        late: &mut [usize],
        mag: &mut [f64],
        raw: &mut [usize],
    ) -> Result<Graph, Refusal>
        ensures { Set (refusal of_graph_with_buffers (graph_request n a.now b.now m.now
            (too_short (length (kept a.now b.now m.now)) early.old late.old mag.old raw.old)))
            n floor (rotate n (kept a.now b.now m.now)) result
            early.old early.new late.old late.new mag.old mag.new raw.old raw.new }
    {
        let g = Graph::new(n, floor, a, b, m, early, late, mag, raw)?;
        turn(n, g.edges, early, late);
        Ok(g)
    }
}

fn is_too_short(edges: usize, early: usize, late: usize, mag: usize, raw: usize) -> bool
    ensures { result ≡ (ltb early edges || ltb late edges || ltb mag edges || ltb raw edges) }
{
    if early < edges {
        return true;
    }
    if late < edges {
        return true;
    }
    if mag < edges {
        return true;
    }
    raw < edges
}

// Writes the kept edges and their raw places to the fronts of four lists. Refuses lists that are too short.
pub fn write_kept(
    edges: usize,
    a: &[usize],
    b: &[usize],
    m: &[f64],
    early: &mut [usize],
    late: &mut [usize],
    mag: &mut [f64],
    raw: &mut [usize],
) -> Result<(), Refusal>
    requires { (length b.now ≡ length a.now) × (length m.now ≡ length a.now) × (edges ≡ length (kept a.now b.now m.now)) }
    ensures { WrittenKept (kept a.now b.now m.now) (refused result) early.old early.new
        late.old late.new mag.old mag.new raw.old raw.new }
{
    if is_too_short(edges, early.len(), late.len(), mag.len(), raw.len()) {
        return Err(Refusal::Buffer);
    }
    keep(a, b, m, early, late, mag);
    keep_places(m, raw);
    Ok(())
}

// The first edges with their ends turned, v to n - 1 - v: the later end comes first.
fn turn(n: usize, edges: usize, early: &mut [usize], late: &mut [usize])
    requires edges_in_bounds { (edges ≤ length early.old) × (edges ≤ length late.old) }
    requires by_index { (e : ℕ) → e < edges → (get_or early.old e 0 < n) × (get_or late.old e 0 < n) }
    ensures { Turned n edges early.old early.new late.old late.new }
{
    for e in 0..edges {
        let x = early[e];
        let y = late[e];
        early[e] = n - 1 - y;
        late[e] = n - 1 - x;
    }
}
