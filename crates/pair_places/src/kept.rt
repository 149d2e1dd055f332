// Which vectors a call keeps for its pairs, and the place of each.
ghost use Rattle.std.specs.Prelude.{◌≡◌, false, cond, ◌+◌, ◌*◌, ◌-◌, ◌<◌, ◌≤◌, length, get_or, set};
ghost use Rattle.limits.specs.Limits.{most_vertices};
ghost use Rattle.list_laws.specs.Count.{count};
ghost use Rattle.transfer_matrix.specs.Room.{arranged, keeps_forward, keeps_backward};
ghost use Rattle.plan_steps.specs.Layout.{numbers, index_of, Holds};
ghost use Rattle.pair_places.specs.Places.{Pairs, Marked, MarkedToo, Numbered, places_of, Placed};

use crate::pairs::{earlier, is_propagated, later, waits};
use limits::VERTICES;
use plan_steps::{BACKWARD_PLACE, FORWARD_PLACE, NUMBERS};

// The places 0 and 1 are for the vectors that move from vertex to vertex.
const MOVING: usize = 2;

// Marks vertex t, where `kept`.
fn mark(marks: &mut [bool], t: usize, kept: bool)
    requires { t < length marks.old }
    ensures { MarkedToo marks.old marks.new t kept }
{
    if kept {
        marks[t] = true;
    }
}

// Marks the vertices whose forward vector is kept: later ones, and earlier ones of propagated pairs.
fn mark_forward(marks: &mut [bool], w: usize, us: &[usize], vs: &[usize])
    requires { Pairs us.now vs.now (length marks.old) × Marked marks.old (λ t. false) }
    ensures { Marked marks.new (keeps_forward w us.now vs.now) }
{
    for i in 0..us.len() {
        let u = us[i];
        let v = vs[i];
        mark(marks, later(u, v), true);
        mark(marks, earlier(u, v), is_propagated(w, u, v));
    }
}

// Marks the vertices whose backward vector is kept: later ones of pairs that wait.
fn mark_backward(marks: &mut [bool], less: bool, w: usize, us: &[usize], vs: &[usize])
    requires { Pairs us.now vs.now (length marks.old) × Marked marks.old (λ t. false) }
    ensures { Marked marks.new (keeps_backward (arranged less) w us.now vs.now) }
{
    for i in 0..us.len() {
        let u = us[i];
        let v = vs[i];
        mark(marks, later(u, v), waits(less, w, u, v));
    }
}

// Gives vertex t the place `next` at its number k where it is kept, else 0. Returns the place that is free then.
fn give_place(plan: &mut [usize], t: usize, k: usize, kept: bool, next: usize) -> usize
    requires { Holds plan.old (t + 1) × (k < numbers) × (next < 4096) }
    ensures { (result ≡ next + cond kept 1 0) × (plan.new ≡ set plan.old (index_of t k) (cond kept next 0)) }
{
    if kept {
        plan[NUMBERS * t + k] = next;
        return next + 1;
    }
    plan[NUMBERS * t + k] = 0;
    next
}

// Gives the marked vertices the places from `from` on, in vertex order. Returns the place behind the last.
fn number_places(plan: &mut [usize], n: usize, k: usize, marks: &[bool], from: usize) -> usize
    requires { Holds plan.old n × (n ≤ most_vertices) × (n ≤ length marks.now) × (k < numbers) × (from ≤ 1026) }
    ensures { Numbered plan.old plan.new (λ t. get_or marks.now t false) k from n result }
{
    let mut next = from;
    for t in 0..n {
        let kept = marks[t];
        next = give_place(plan, t, k, kept, next);
    }
    next
}

// How many of the first n marks are set.
fn count_marks(marks: &[bool], n: usize) -> usize
    requires { n ≤ length marks.now }
    ensures { result ≡ count (λ t. get_or marks.now t false) n }
{
    let mut c = 0usize;
    for t in 0..n {
        if marks[t] {
            c += 1;
        }
    }
    c
}

// The number of places: the moving vectors, the kept forward ones and the kept backward ones.
pub fn count_places(less: bool, n: usize, w: usize, us: &[usize], vs: &[usize]) -> usize
    requires { Pairs us.now vs.now n × (n ≤ most_vertices) }
    ensures { result ≡ places_of (arranged less) n w us.now vs.now }
{
    let mut forward = [false; VERTICES];
    mark_forward(&mut forward, w, us, vs);
    let mut backward = [false; VERTICES];
    mark_backward(&mut backward, less, w, us, vs);
    MOVING + count_marks(&forward, n) + count_marks(&backward, n)
}

// The places of all kept vectors in the plan. Returns the number of places.
pub fn plan_places(
    plan: &mut [usize],
    less: bool,
    n: usize,
    w: usize,
    us: &[usize],
    vs: &[usize],
) -> usize
    requires { Pairs us.now vs.now n × (n ≤ most_vertices) × Holds plan.old n }
    ensures { Placed (arranged less) plan.old plan.new us.now vs.now n w result }
{
    let mut forward = [false; VERTICES];
    mark_forward(&mut forward, w, us, vs);
    let mut backward = [false; VERTICES];
    mark_backward(&mut backward, less, w, us, vs);
    let next = number_places(plan, n, FORWARD_PLACE, &forward, MOVING);
    number_places(plan, n, BACKWARD_PLACE, &backward, next)
}
