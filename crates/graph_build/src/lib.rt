// A graph is checked and its kept edges are set out before anything is asked of it.
#![tactic(auto)]

ghost use Rattle.std.specs.Prelude.{◌≡◌, []};
ghost use Rattle.limits.specs.Limits.{most_edges};
ghost use Rattle.refusals.specs.Edges.{dropping};
ghost use Rattle.refusals.specs.Numbers.{refused};
ghost use Rattle.kept_edges.specs.Keep.{Holds, CheckedRaw, CheckedGraph};

use graph_checks::{bad_edges, bad_lists, bad_sizes, bad_vertices, joined_twice, unordered_betas};
use kept_edges::keep::keep_dropping;
use refusals::Refusal;

// The checks that read the lists as they are lent, 1 to 4 and 21: of a graph, pairs and betas. The magnitude at `dropped` counts as zero, here
// and below.
fn check_raw(
    n: usize,
    a: &[usize],
    b: &[usize],
    m: &[f64],
    dropped: usize,
    us: &[usize],
    vs: &[usize],
    betas: &[f64],
) -> Result<(), Refusal>
    ensures { CheckedRaw n a.now b.now (dropping dropped m.now) us.now vs.now betas.now (refused result) }
{
    if bad_vertices(n) {
        return Err(Refusal::VertexCount);
    }
    if bad_lists(a.len(), b.len(), m.len(), us.len(), vs.len(), betas.len()) {
        return Err(Refusal::ListLengths);
    }
    if bad_edges(n, a, b) {
        return Err(Refusal::EdgeEnds);
    }
    if bad_sizes(m, dropped, betas) {
        return Err(Refusal::Magnitude);
    }
    if unordered_betas(betas) {
        return Err(Refusal::Betas);
    }
    Ok(())
}

// Checks 1 to 5, 21 among them. Where none fits, the kept edges stand at the fronts of the three lists, and their count is returned.
pub fn check_graph_dropping(
    n: usize,
    a: &[usize],
    b: &[usize],
    m: &[f64],
    dropped: usize,
    us: &[usize],
    vs: &[usize],
    betas: &[f64],
    early: &mut [usize],
    late: &mut [usize],
    mag: &mut [f64],
) -> Result<usize, Refusal>
    requires { Holds most_edges early.old late.old mag.old }
    ensures { CheckedGraph n a.now b.now (dropping dropped m.now) us.now vs.now betas.now result
        early.old early.new late.old late.new mag.old mag.new }
{
    check_raw(n, a, b, m, dropped, us, vs, betas)?;
    let edges = keep_dropping(a, b, m, dropped, early, late, mag);
    if joined_twice(&early[..edges], &late[..edges]) {
        return Err(Refusal::ParallelEdges);
    }
    Ok(edges)
}

// The same where no magnitude counts as another.
pub fn check_graph(
    n: usize,
    a: &[usize],
    b: &[usize],
    m: &[f64],
    us: &[usize],
    vs: &[usize],
    betas: &[f64],
    early: &mut [usize],
    late: &mut [usize],
    mag: &mut [f64],
) -> Result<usize, Refusal>
    requires { Holds most_edges early.old late.old mag.old }
    ensures { CheckedGraph n a.now b.now m.now us.now vs.now betas.now result
        early.old early.new late.old late.new mag.old mag.new }
{
    check_graph_dropping(n, a, b, m, m.len(), us, vs, betas, early, late, mag)
}

// Checks 1 to 5 of a graph alone.
pub fn build(
    n: usize,
    a: &[usize],
    b: &[usize],
    m: &[f64],
    early: &mut [usize],
    late: &mut [usize],
    mag: &mut [f64],
) -> Result<usize, Refusal>
    requires { Holds most_edges early.old late.old mag.old }
    ensures { CheckedGraph n a.now b.now m.now [] [] [] result
        early.old early.new late.old late.new mag.old mag.new }
{
    check_graph(n, a, b, m, &a[..0], &a[..0], &m[..0], early, late, mag)
}
