// The direct pairs of one vertex, answered from its vectors wherever these lie.
ghost use Rattle.std.specs.Prelude.{◌+◌, ◌≤◌, ◌<◌, length, ◌≡◌};
ghost use Rattle.transfer_matrix.specs.Room.{earlier};
ghost use Rattle.pair_correlations.specs.Aim.{DirectSource};
ghost use Rattle.pair_correlations.specs.Direct.{DirectAsked, AnsweredAt};

use crate::write::write_two;
use pair_places::earlier;
use pair_sums::Source;

// A vertex, and the places of its forward and its backward vector.
#[derive(Clone, Copy)]
pub struct VertexPlaces {
    pub vertex: usize,
    pub forward: usize,
    pub backward: usize,
}

// Where the sums of pair p are read, whose later vertex is that of `at`.
fn source_at(us: &[usize], vs: &[usize], at: VertexPlaces, p: usize) -> Source
    requires { (p < length us.now) × (length us.now ≡ length vs.now) × (earlier us.now vs.now p < at.vertex) }
    ensures { DirectSource at.forward at.backward (earlier us.now vs.now p) at.vertex result }
{
    let u = earlier(us[p], vs[p]);
    Source {
        f: at.forward,
        g: at.forward,
        b: at.backward,
        d: at.vertex - u,
    }
}

// The number beside k that is answered in one pass with it: the next below `to`, or k itself.
fn beside(k: usize, to: usize) -> usize
    requires { k < to }
    ensures { (k ≤ result) × (result ≤ k + 1) × (result < to) }
{
    if k + 1 < to { k + 1 } else { k }
}

// The answers of the pairs from..to of the order, two in one pass. Returns whether their Z is finite and above zero.
pub fn answer_direct(
    room: &[f64],
    w: usize,
    us: &[usize],
    vs: &[usize],
    order: &[usize],
    at: VertexPlaces,
    from: usize,
    to: usize,
    results: &mut [f64],
) -> bool
    requires { DirectAsked us.now vs.now order.now (length room.now) w at from to (length results.old) }
    ensures { AnsweredAt room.now us.now vs.now order.now w at from to
        results.old results.new result }
{
    let mut k = from;
    while k < to {
        let j = beside(k, to);
        let p = order[k];
        let q = order[j];
        let x = source_at(us, vs, at, p);
        let y = source_at(us, vs, at, q);
        if !write_two(room, w, x, y, p, q, results) {
            return false;
        }
        k = j + 1;
    }
    true
}
