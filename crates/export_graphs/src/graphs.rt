// A graph's kept edges, as they are, turned, or of a diluted strip, with their raw places; its window and their number through references.
ghost use Rattle.std.specs.Prelude.{◌≡◌, length};
ghost use Rattle.refusals.specs.Edges.{kept};
ghost use Rattle.refusals.specs.Request.{graph_request};
ghost use Rattle.refusals.specs.Refusal.{refusal, of_graph_with_buffers};
ghost use Rattle.graph_edges.specs.Graphs.{too_short, rotate};
ghost use Rattle.strip_window.specs.Window.{window_of};
ghost use Rattle.strip_dilution.specs.Diluted.{dilution};
ghost use Rattle.strip_graph.specs.DilutedGraph.{diluted_edges, graph_refusal};
ghost use Rattle.c_values.specs.Kinds.{strip_numbered};
ghost use Rattle.export_graphs.specs.Graphs.{Listed};

use c_answers::tell_graph;
use c_values::strip_numbered;
use graph_edges::Graph;

// As `Graph::new`; where the call is refused, `window` and `edges` keep what they held.
#[unsafe(no_mangle)]
pub extern "C" fn copperhook_graph(
    n: usize,
    floor: usize,
    a: &[usize],
    b: &[usize],
    m: &[f64],
    early: &mut [usize],
    late: &mut [usize],
    mag: &mut [f64],
    raw: &mut [usize],
    window: &mut usize,
    edges: &mut usize,
) -> usize
    ensures { Listed (refusal of_graph_with_buffers (graph_request n a.now b.now m.now
        (too_short (length (kept a.now b.now m.now)) early.old late.old mag.old raw.old)))
        floor (kept a.now b.now m.now) result early.old early.new late.old
        late.new mag.old mag.new raw.old raw.new window.old window.new edges.old edges.new }
{
    let answer = Graph::new(n, floor, a, b, m, early, late, mag, raw);
    tell_graph(answer, window, edges)
}

// As `Graph::rotated`; where the call is refused, `window` and `edges` keep what they held.
#[unsafe(no_mangle)]
pub extern "C" fn copperhook_rotated(
    n: usize,
    floor: usize,
    a: &[usize],
    b: &[usize],
    m: &[f64],
    early: &mut [usize],
    late: &mut [usize],
    mag: &mut [f64],
    raw: &mut [usize],
    window: &mut usize,
    edges: &mut usize,
) -> usize
    ensures { Listed (refusal of_graph_with_buffers (graph_request n a.now b.now m.now
        (too_short (length (kept a.now b.now m.now)) early.old late.old mag.old raw.old)))
        floor (rotate n (kept a.now b.now m.now)) result early.old early.new late.old
        late.new mag.old mag.new raw.old raw.new window.old window.new edges.old edges.new }
{
    let answer = Graph::rotated(n, floor, a, b, m, early, late, mag, raw);
    tell_graph(answer, window, edges)
}

// As `strip_graph::diluted_graph`; where the call is refused, `window` and `edges` keep what they held.
#[unsafe(no_mangle)]
pub extern "C" fn copperhook_diluted_graph(
    kind: usize,
    w: usize,
    l: usize,
    periodic: bool,
    keep: f64,
    low: f64,
    high: f64,
    seed: u64,
    early: &mut [usize],
    late: &mut [usize],
    mag: &mut [f64],
    raw: &mut [usize],
    window: &mut usize,
    edges: &mut usize,
) -> usize
    ensures { Listed (graph_refusal (strip_numbered kind w l periodic) (dilution keep low high) seed early.old late.old mag.old raw.old)
        (window_of (strip_numbered kind w l periodic)) (diluted_edges (strip_numbered kind w l periodic) (dilution keep low high) seed) result early.old early.new
        late.old late.new mag.old mag.new raw.old raw.new window.old window.new edges.old edges.new }
{
    let strip = strip_numbered(kind, w, l, periodic);
    let answer = strip_graph::diluted_graph(strip, keep, low, high, seed, early, late, mag, raw);
    tell_graph(answer, window, edges)
}
