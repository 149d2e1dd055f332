// All pairs, two at a time. The current propagated vector goes on from pair to pair.
ghost use Rattle.std.specs.Prelude.{◌≡◌, Bool, ℕ, ◌+◌, ◌≤◌, ◌<◌, Float, length, get_or, drop};
ghost use Rattle.transfer_matrix.specs.Job.{Job};
ghost use Rattle.transfer_matrix.specs.Room.{earlier, later};
ghost use Rattle.plan_steps.specs.Layout.{Holds};
ghost use Rattle.pair_order.specs.Order.{Ordered};
ghost use Rattle.pair_places.specs.Places.{Pairs};
ghost use Rattle.vertex_step.specs.Ready.{Ready, PlanOf, BothSwept, Still};
ghost use Rattle.propagation.specs.Pairing.{Directs};
ghost use Rattle.pair_correlations.specs.Sound.{Outcome};
ghost use Rattle.pair_correlations.specs.Aim.{PairPlaces, PlacedFrom, Second, SecondSource};
ghost use Rattle.pair_correlations.specs.Two.{Answered, AnsweredTwo};

use crate::pair::{aim_at, direct_source};
use crate::write::write_two;
use pair_places::{earlier, later};
use pair_sums::Source;
use propagation::{CurrentVector, Pairing, next_pairing};

// The current propagated vector after two pairs, and whether their Z are finite and above zero.
#[derive(Drop)]
pub struct AfterTwo {
    pub current: CurrentVector,
    pub sound: bool,
}

// Where the sums of pair q are read, which is pair p, whose sums are read at `first`, or a direct pair.
fn second_source(
    plan: &[usize],
    us: &[usize],
    vs: &[usize],
    n: usize,
    w: usize,
    p: usize,
    q: usize,
    first: Source,
) -> Source
    requires { Holds plan.now n × Pairs us.now vs.now n × (q < length us.now)
        × PairPlaces plan.now n w (earlier us.now vs.now q) (later us.now vs.now q) }
    ensures { SecondSource plan.now us.now vs.now p q first result }
{
    if q == p {
        return first;
    }
    let a = us[q];
    let b = vs[q];
    direct_source(plan, n, w, earlier(a, b), later(a, b))
}

// The pairs p and q in one pass, q being p or a direct pair. Where a Z is not finite and above zero, nothing is written.
fn answer_two(
    room: &mut [f64],
    plan: &[usize],
    n: usize,
    w: usize,
    scales: usize,
    us: &[usize],
    vs: &[usize],
    p: usize,
    q: usize,
    current: CurrentVector,
    results: &mut [f64],
) -> AfterTwo
    requires { Ready plan.now (length room.old) n w scales × Pairs us.now vs.now n
        × (p < length us.now) × (q < length us.now) × Second us.now vs.now w p q × (current.place < 2) × (length results.old ≡ length us.now)
        × PairPlaces plan.now n w (earlier us.now vs.now p) (later us.now vs.now p)
        × PairPlaces plan.now n w (earlier us.now vs.now q) (later us.now vs.now q) }
    ensures { AnsweredTwo plan.now us.now vs.now room.old room.new
        results.old results.new n w scales p q current result }
{
    let a = us[p];
    let b = vs[p];
    let aim = aim_at(
        room,
        plan,
        n,
        w,
        scales,
        earlier(a, b),
        later(a, b),
        current,
    );
    let source = aim.source;
    let other = second_source(plan, us, vs, n, w, p, q, source);
    let sound = write_two(room, w, source, other, p, q, results);
    let reached = aim.current;
    AfterTwo {
        current: reached,
        sound: sound,
    }
}

// The answers of all pairs, taken by the order given, of which the first `answered` pairs are answered already, and the first `directs` are
// direct. Returns false at the first pairs whose Z are not finite and above zero; the results are then not all written.
pub fn answer_pairs(
    room: &mut [f64],
    plan: &[usize],
    n: usize,
    w: usize,
    scales: usize,
    us: &[usize],
    vs: &[usize],
    order: &[usize],
    directs: usize,
    answered: usize,
    results: &mut [f64],
) -> bool
    requires { Ready plan.now (length room.old) n w scales × Pairs us.now vs.now n × Ordered order.now (length us.now)
        × Directs us.now vs.now order.now w directs × (answered ≤ directs) × PlacedFrom plan.now us.now vs.now order.now n w answered
        × (length results.old ≡ length us.now) }
    ensures still { Still room.old room.new w scales }
    ensures outcome { (J : Job Float) (elementwise : Bool) → PlanOf J plan.now (drop (scales + n) room.old) n w elementwise
        → BothSwept J plan.now room.old n w scales
        → ((k : ℕ) → k < answered → Answered J us.now vs.now results.old (get_or order.now k 0))
        → Outcome J us.now vs.now results.new result }
{
    let all = order.len();
    let mut current = CurrentVector {
        vertex: n,
        reached: 0,
        place: 0,
    };
    let mut direct = answered;
    let mut other = directs;
    while direct + other < directs + all {
        let Pairing {
            first,
            second,
            direct: direct2,
            other: other2,
        } = next_pairing(directs, all, direct, other);
        let step = answer_two(
            room,
            plan,
            n,
            w,
            scales,
            us,
            vs,
            order[first],
            order[second],
            current,
            results,
        );
        if !step.sound {
            return false;
        }
        current = step.current;
        direct = direct2;
        other = other2;
    }
    true
}
