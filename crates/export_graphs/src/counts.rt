// What one number says of a graph: its window, its components and its free edges.
ghost use Rattle.std.specs.Prelude.{◌≡◌, false};
ghost use Rattle.forest.specs.Components.{component_count};
ghost use Rattle.refusals.specs.Edges.{window_from, kept_early, kept_late};
ghost use Rattle.refusals.specs.Request.{graph_request};
ghost use Rattle.refusals.specs.Refusal.{refusal, of_graph};
ghost use Rattle.refusals.specs.Answers.{left};
ghost use Rattle.forest.specs.FreeEdges.{free_count};
ghost use Rattle.graph.specs.Graphs.{ComponentMarks};

use c_answers::tell_number;

// As `graph::window`, the window in `window`; where the call is refused, that keeps what it held.
#[unsafe(no_mangle)]
pub extern "C" fn copperhook_window(
    n: usize,
    floor: usize,
    a: &[usize],
    b: &[usize],
    m: &[f64],
    window: &mut usize,
) -> usize
    ensures value { result ≡ refusal of_graph (graph_request n a.now b.now m.now false) }
    ensures window_after { window.new ≡ left result (window_from floor a.now b.now m.now) window.old }
{
    let answer = graph::window(n, a, b, m, floor);
    tell_number(answer, window)
}

// As `graph::n_components`, how many there are in `count`; `marks` has a bit for the lowest vertex of each.
#[unsafe(no_mangle)]
pub extern "C" fn copperhook_n_components(
    n: usize,
    a: &[usize],
    b: &[usize],
    m: &[f64],
    marks: &mut [u64; 16],
    count: &mut usize,
) -> usize
    ensures value { result ≡ refusal of_graph (graph_request n a.now b.now m.now false) }
    ensures count_after { count.new ≡ left result
        (component_count n (kept_early a.now b.now m.now)
        (kept_late a.now b.now m.now)) count.old }
    ensures component_marks { ComponentMarks result n (kept_early a.now b.now m.now)
        (kept_late a.now b.now m.now) marks.old marks.new }
{
    let answer = graph::n_components(n, a, b, m, marks);
    tell_number(answer, count)
}

// As `graph::cyclomatic`, how many edges are free in `free`.
#[unsafe(no_mangle)]
pub extern "C" fn copperhook_cyclomatic(
    n: usize,
    a: &[usize],
    b: &[usize],
    m: &[f64],
    free: &mut usize,
) -> usize
    ensures value { result ≡ refusal of_graph (graph_request n a.now b.now m.now false) }
    ensures free_after { free.new ≡ left result
        (free_count (kept_early a.now b.now m.now)
        (kept_late a.now b.now m.now)) free.old }
{
    let answer = graph::cyclomatic(n, a, b, m);
    tell_number(answer, free)
}
