// Free edges and their bits, of a graph with the vertices 0 to n - 1.
// Its kept edges come as two lists of ends, the smaller ends first: edge e joins early[e] and late[e].
#![tactic(auto)]

ghost use Rattle.std.specs.Prelude.{◌≡◌, cond, not, ◌+◌, ◌≤◌, ◌<◌, length};
ghost use Rattle.limits.specs.Limits.{most_vertices, most_edges};
ghost use Rattle.edge_bits.specs.Having.{tree};
ghost use Rattle.forest.specs.Paths.{Edges};
ghost use Rattle.forest.specs.FreeEdges.{free_count, bits_of};

use edge_bits::TREE;
use limits::{EDGES, VERTICES};
use union_find::{start, union_lower};

// The bit of an edge with so many free edges before it; a tree edge has none.
fn bit_or_none(joins: bool, free: usize) -> usize
    ensures { result ≡ cond joins tree free }
{
    if joins { TREE } else { free }
}

// How many edges are free, with one edge more.
fn with_edge(joins: bool, free: usize) -> usize
    requires { free < tree }
    ensures { result ≡ free + cond (not joins) 1 0 }
{
    if joins { free } else { free + 1 }
}

// Gives each free edge its bit of a configuration's number, in edge order from 0, and each tree edge TREE. Returns how many edges are free. No
// other function counts free edges: an edge is free where a path of earlier edges joins its ends.
pub fn number_free_edges(n: usize, early: &[usize], late: &[usize], bits: &mut [usize]) -> usize
    requires { Edges n early.now late.now × (n ≤ most_vertices) × (length bits.old ≡ length early.now) }
    ensures { (result ≡ free_count early.now late.now) × (bits.new ≡ bits_of early.now late.now) }
{
    let mut parents = [0usize; VERTICES];
    let p = &mut parents[..n];
    start(p);
    let mut free: usize = 0;
    for e in 0..early.len() {
        let joins = union_lower(p, early[e], late[e]);
        bits[e] = bit_or_none(joins, free);
        free = with_edge(joins, free);
    }
    free
}

// How many edges are free, where their bits are not asked for.
pub fn count_free_edges(n: usize, early: &[usize], late: &[usize]) -> usize
    requires { Edges n early.now late.now × (n ≤ most_vertices) × (length early.now ≤ most_edges) }
    ensures { result ≡ free_count early.now late.now }
{
    let mut bits = [0usize; EDGES];
    let edges = early.len();
    number_free_edges(n, early, late, &mut bits[..edges])
}
