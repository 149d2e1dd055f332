// The components of a graph with the vertices 0 to n - 1: a number for each vertex, how many there are, and the lowest vertex of each.
// Its kept edges come as two lists of ends, the smaller ends first: edge e joins early[e] and late[e].
#![tactic(auto)]

ghost use Rattle.std.specs.Prelude.{◌≡◌, ◌≤◌, length};
ghost use Rattle.limits.specs.Limits.{most_vertices};
ghost use Rattle.list_laws.specs.Count.{count};
ghost use Rattle.list_laws.specs.Tabulate.{tabulate};
ghost use Rattle.union_find.specs.Forest.{Labelled};
ghost use Rattle.forest.specs.Paths.{Edges};
ghost use Rattle.forest.specs.Labels.{labels, is_tree};
ghost use Rattle.forest.specs.Components.{component_count};
ghost use Rattle.forest.specs.Lowest.{lowest, lowest_marks};

mod marks;

use limits::VERTICES;
use marks::mark_roots;
use union_find::{find, start, union, union_lower};

// How many components there are, and a bit for the lowest vertex of each: vertex v is bit v mod 64 of word v / 64.
#[derive(Drop)]
pub struct Marked {
    pub count: usize,
    pub marks: [u64; 16],
}

// The number of each vertex's component: the root above the vertex when all edges have joined their ends.
pub fn name_components(n: usize, early: &[usize], late: &[usize], out: &mut [usize])
    requires { Edges n early.now late.now × (n ≤ most_vertices) × (length out.old ≡ n) }
    ensures { out.new ≡ tabulate (labels early.now late.now (length early.now)) n }
{
    let mut parents = [0usize; VERTICES];
    let p = &mut parents[..n];
    start(p);
    for e in 0..early.len() {
        union(p, early[e], late[e]);
    }
    for v in 0..n {
        out[v] = find(p, v);
    }
}

// Joins the ends of every edge, of two roots the lower staying. Returns how many are tree edges.
fn join_ends(p: &mut [usize], early: &[usize], late: &[usize]) -> usize
    requires { Edges (length p.old) early.now late.now }
    ensures { (result ≡ count (is_tree early.now late.now) (length early.now))
        × Labelled (length p.old) (lowest early.now late.now (length early.now)) p.new }
{
    start(p);
    let mut trees: usize = 0;
    for e in 0..early.len() {
        let joins = union_lower(p, early[e], late[e]);
        if joins {
            trees += 1;
        }
    }
    trees
}

// Marks the lowest vertex of each component, one bit a vertex, and counts the components.
pub fn mark_components(n: usize, early: &[usize], late: &[usize]) -> Marked
    requires { Edges n early.now late.now × (n ≤ most_vertices) }
    ensures { (result.count ≡ component_count n early.now late.now)
        × (result.marks ≡ lowest_marks n early.now late.now) }
{
    let mut parents = [0usize; VERTICES];
    let p = &mut parents[..n];
    let trees = join_ends(p, early, late);
    let marks = mark_roots(p);
    Marked {
        count: n - trees,
        marks,
    }
}
