// Graph distance: the least number of edges of a walk between two vertices.
// Lengths of known walks are lowered edge by edge, in sweeps that rise and fall in turn, until a whole sweep lowers none.
#![tactic(auto)]

ghost use Rattle.std.specs.Prelude.{◌≡◌, ◌+◌, ◌<◌, ◌≤◌, length, get_or};
ghost use Rattle.distance.specs.Walks.{Inside, Distance};
ghost use Rattle.distance.specs.Lengths.{Ready, Relaxed, EdgesRelaxed, Settled, Lowered};

use limits::VERTICES;

// Relaxes the step from a to b: one more than a's length becomes b's where that is less. Returns whether it did.
fn relax(d: &mut [usize], a: usize, b: usize) -> bool
    requires { (a < length d.old) × (b < length d.old) × (get_or d.old a 0 ≤ 1024) }
    ensures { Relaxed d.old a b result d.new }
{
    let x = d[a] + 1;
    let y = d[b];
    if y <= x {
        return false;
    }
    d[b] = x;
    true
}

// Relaxes edge i in both directions: did it lower a length?
fn relax_edge(early: &[usize], late: &[usize], d: &mut [usize], i: usize) -> bool
    requires { Ready early.now late.now d.old × (i < length early.now) }
    ensures { EdgesRelaxed early.now late.now i (i + 1) d.old result d.new }
{
    let a = early[i];
    let b = late[i];
    let x = relax(d, a, b);
    let y = relax(d, b, a);
    x | y
}

// Relaxes every edge, in rising order.
fn sweep_up(early: &[usize], late: &[usize], d: &mut [usize]) -> bool
    requires { Ready early.now late.now d.old }
    ensures { EdgesRelaxed early.now late.now 0 (length early.now) d.old result d.new }
{
    let mut more = false;
    for i in 0..early.len() {
        let x = relax_edge(early, late, d, i);
        more = more | x;
    }
    more
}

// Relaxes every edge, in falling order.
fn sweep_down(early: &[usize], late: &[usize], d: &mut [usize]) -> bool
    requires { Ready early.now late.now d.old }
    ensures { EdgesRelaxed early.now late.now 0 (length early.now) d.old result d.new }
{
    let mut more = false;
    for i in (0..early.len()).rev() {
        let x = relax_edge(early, late, d, i);
        more = more | x;
    }
    more
}

// Rising and falling sweeps in turn: where the edges are listed along a strip, each sweep carries lengths from end to end.
fn settle(early: &[usize], late: &[usize], d: &mut [usize])
    requires { Ready early.now late.now d.old }
    ensures lowered { Lowered early.now late.now d.old d.new }
    ensures settled { Settled early.now late.now 0 (length early.now) d.new }
{
    loop {
        if !sweep_up(early, late, d) {
            return;
        }
        if !sweep_down(early, late, d) {
            return;
        }
    }
}

// The length of a shortest walk, if one joins u and v. 1024 stands for a length that is not known: a shortest walk meets no vertex twice, so it has fewer edges.
pub fn shortest_walk(early: &[usize], late: &[usize], u: usize, v: usize) -> Option<usize>
    requires { (length late.now ≡ length early.now) × Inside early.now late.now 1024 × (u < 1024) × (v < 1024) }
    ensures { Distance early.now late.now u v result }
{
    let mut d = [VERTICES; VERTICES];
    d[u] = 0;
    settle(early, late, &mut d);
    let r = d[v];
    if r == VERTICES {
        return None;
    }
    Some(r)
}
