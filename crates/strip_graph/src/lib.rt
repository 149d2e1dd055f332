// The graph of a diluted strip, for callers: the kept edges with their places in the strip's edge list.
#![tactic(auto)]

ghost use Rattle.std.specs.Prelude.{◌≡◌, cond, ◌*◌, ◌≤◌, length};
ghost use Rattle.limits.specs.Limits.{most_edges};
ghost use Rattle.transfer_matrix.specs.Job.{window_of};
ghost use Rattle.refusals.specs.Edges.{kept};
ghost use Rattle.kept_edges.specs.Keep.{Ordered};
ghost use Rattle.graph_edges.specs.Graphs.{too_short, Set};
ghost use Rattle.strip_window.specs.Window.{window_of as strip_window};
ghost use Rattle.strip_dilution.specs.Diluted.{dilution};
ghost use Rattle.strip_graph.specs.DilutedGraph.{diluted_edges, graph_refusal};

use graph_edges::{Graph, write_kept};
use kept_edges::keep::keep_places;
use kept_edges::window_of;
use limits::EDGES;
use refusals::Refusal;
use strip::{Strip, vertex_count};
use strip_dilution::diluted;

// The graph of the kept ones of edges that need no check. Its window is that of all of them, dropped ones too.
fn graph_of(
    n: usize,
    a: &[usize],
    b: &[usize],
    m: &[f64],
    early: &mut [usize],
    late: &mut [usize],
    mag: &mut [f64],
    raw: &mut [usize],
) -> Result<Graph, Refusal>
    requires { Ordered a.now b.now × (length m.now ≡ length a.now) × (length a.now ≤ most_edges) }
    ensures { Set (cond (too_short (length (kept a.now b.now m.now)) early.old late.old mag.old raw.old) 12 0)
        n (window_of 0 a.now b.now) (kept a.now b.now m.now) result
        early.old early.new late.old late.new mag.old mag.new raw.old raw.new }
{
    let mut places = [0usize; EDGES];
    let edges = keep_places(m, &mut places);
    let win = window_of(0, a, b);
    write_kept(edges, a, b, m, early, late, mag, raw)?;
    Ok(Graph { n, win, edges })
}

// Draws the strip's edges as `diluted` does, and keeps them; the window is the whole strip's.
pub fn diluted_graph(
    s: Strip,
    keep: f64,
    mlo: f64,
    mhi: f64,
    seed: u64,
    early: &mut [usize],
    late: &mut [usize],
    mag: &mut [f64],
    raw: &mut [usize],
) -> Result<Graph, Refusal>
    ensures { Set (graph_refusal s (dilution keep mlo mhi) seed early.old late.old mag.old raw.old)
        (s.w * s.l) (strip_window s) (diluted_edges s (dilution keep mlo mhi) seed) result
        early.old early.new late.old late.new mag.old mag.new raw.old raw.new }
{
    let mut first = [0usize; EDGES];
    let mut second = [0usize; EDGES];
    let mut size = [0.0f64; EDGES];
    let k = diluted(s, keep, mlo, mhi, seed, &mut first, &mut second, &mut size)?;
    let n = vertex_count(s.w, s.l);
    graph_of(
        n,
        &first[..k],
        &second[..k],
        &size[..k],
        early,
        late,
        mag,
        raw,
    )
}
