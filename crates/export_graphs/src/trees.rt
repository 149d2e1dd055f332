// The bits of a graph's free edges, and the names of its components.
ghost use Rattle.std.specs.Prelude.{◌≡◌, not, eqb, length};
ghost use Rattle.forest.specs.FreeEdges.{bits_of, ForestBits};
ghost use Rattle.refusals.specs.Edges.{kept, kept_early, kept_late};
ghost use Rattle.refusals.specs.Request.{graph_request};
ghost use Rattle.refusals.specs.Refusal.{refusal, of_graph_with_buffers};
ghost use Rattle.refusals.specs.Answers.{left};
ghost use Rattle.graph.specs.Graphs.{component_names};

use refusals::refused;

// As `graph::spanning_forest`, with its free edges numbered.
#[unsafe(no_mangle)]
pub extern "C" fn copperhook_spanning_forest(
    n: usize,
    a: &[usize],
    b: &[usize],
    m: &[f64],
    bits: &mut [usize],
) -> usize
    ensures { (result ≡ refusal of_graph_with_buffers (graph_request n a.now b.now m.now (not (eqb (length bits.old) (length (kept a.now b.now m.now)))))) × (bits.new ≡ left result (bits_of (kept_early a.now b.now m.now) (kept_late a.now b.now m.now)) bits.old) × (result ≡ 0 → ForestBits n (kept_early a.now b.now m.now) (kept_late a.now b.now m.now) bits.new) }
{
    refused(graph::spanning_forest(n, a, b, m, bits))
}

// As `graph::components`.
#[unsafe(no_mangle)]
pub extern "C" fn copperhook_components(
    n: usize,
    a: &[usize],
    b: &[usize],
    m: &[f64],
    names: &mut [usize],
) -> usize
    ensures { (result ≡ refusal of_graph_with_buffers (graph_request n a.now b.now m.now (not (eqb (length names.old) n)))) × (names.new ≡ left result (component_names n (kept_early a.now b.now m.now) (kept_late a.now b.now m.now)) names.old) }
{
    refused(graph::components(n, a, b, m, names))
}
