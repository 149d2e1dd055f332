// The graph of a diluted strip: the original's kept edges and window, each edge with its place in the strip's edge list. And lists one too short, or exact.
ghost use Rattle.std.specs.Prelude.{◌≤◌, length};

use crate::common::{GUARD, GUARD_MAGNITUDE, cut, is_refused, see_edges, wide, word};
use crate::dilutions::Dilution;
use graph_edges::Graph;
use refusals::Refusal;
use strip::Strip;

// The graph into the first k elements of four lists; one less of the list that is to be short, 4 for none.
fn lend(
    s: Strip,
    x: Dilution,
    k: usize,
    short: usize,
    early: &mut [usize],
    late: &mut [usize],
    mag: &mut [f64],
    raw: &mut [usize],
) -> Result<Graph, Refusal>
    requires { (k ≤ length early.old) × (k ≤ length late.old) × (k ≤ length mag.old) × (k ≤ length raw.old) }
{
    let a = cut(k, short == 0);
    let b = cut(k, short == 1);
    let c = cut(k, short == 2);
    let d = cut(k, short == 3);
    strip_graph::diluted_graph(
        s,
        x.keep,
        x.low,
        x.high,
        x.seed,
        &mut early[..a],
        &mut late[..b],
        &mut mag[..c],
        &mut raw[..d],
    )
}

fn is_graph(m: Result<Graph, Refusal>, edges: u64, window: u64) -> bool {
    match m {
        Ok(g) => (wide(g.edges) == edges) & (wide(g.win) == window),
        Err(_) => false,
    }
}

// Lists for k edges, of which one is one too short: 12, and nothing is written.
fn short_agrees(s: Strip, x: Dilution, k: usize, short: usize) -> bool {
    let mut early = [GUARD; 4096];
    let mut late = [GUARD; 4096];
    let mut mag = [GUARD_MAGNITUDE; 4096];
    let mut raw = [GUARD; 4096];
    if 4096 < k {
        return false;
    }
    let answer = lend(s, x, k, short, &mut early, &mut late, &mut mag, &mut raw);
    let seen = see_edges(0, &early, &late, &mag);
    let placed = see_edges(0, &raw, &late, &mag);
    is_refused(answer, 12) & seen.rest & placed.rest
}

// Lists of k elements each hold the kept edges and their places, and no more is written.
fn filled_agrees(s: Strip, x: Dilution, k: usize, list: &[u8], at: usize) -> bool {
    let mut early = [GUARD; 4096];
    let mut late = [GUARD; 4096];
    let mut mag = [GUARD_MAGNITUDE; 4096];
    let mut raw = [GUARD; 4096];
    if 4096 < k {
        return false;
    }
    let edges = word(list, at, 5);
    let answer = lend(s, x, k, 4, &mut early, &mut late, &mut mag, &mut raw);
    let seen = see_edges(edges, &early, &late, &mag);
    let placed = see_edges(edges, &raw, &late, &mag);
    is_graph(answer, edges, word(list, at, 7))
        & (seen.hash == word(list, at, 6))
        & (placed.hash == word(list, at, 9))
        & seen.rest
        & placed.rest
}

fn lengths_agree(s: Strip, x: Dilution, k: usize) -> bool {
    if k == 0 {
        return true;
    }
    short_agrees(s, x, k, 0)
        & short_agrees(s, x, k, 1)
        & short_agrees(s, x, k, 2)
        & short_agrees(s, x, k, 3)
}

// A record as in `dilutions`.
pub(crate) fn agree(s: Strip, x: Dilution, list: &[u8], at: usize) -> bool {
    let k = word(list, at, 5) as usize;
    filled_agrees(s, x, 4096, list, at) & filled_agrees(s, x, k, list, at) & lengths_agree(s, x, k)
}
