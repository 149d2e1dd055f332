// The forward step from half to half, by runs.
#![tactic(auto)]

ghost use Rattle.std.specs.Prelude.{◌≡◌, ◌+◌, ◌*◌, ◌-◌, ◌%◌, ◌^◌, ◌<◌, ◌≤◌, length, Float};
ghost use Rattle.list_laws.specs.Tabulate.{tabulate};
ghost use Rattle.list_laws.specs.Part.{Apart, put};
ghost use Rattle.transfer_matrix.specs.Job.{Step};
ghost use Rattle.step_tables.specs.Step.{Rising, Tabled, tables};
ghost use Rattle.step_tables.specs.Rule.{entries, from_end, weights, alternating, forward_rule};
ghost use Rattle.step_tables.specs.Place.{Places};
ghost use Rattle.half_vectors.specs.Half.{forward_half, negated_if};
ghost use Rattle.largest_entry.specs.Top.{top};

use half_vectors::negated_if;
use largest_entry::{Four, joined, larger_of, no_entries};
use step_runs::{StepRuns, step_runs, store_few};
use step_tables::{pattern_of, pow2};

// A run of n pairs, two an iteration: sources from a up and from b down, target at o. All of an iteration is read before its first store, so that the
// stores of a pair are one. Returns the largest of the entries: each of an iteration goes into a lane of its own.
fn forward_run(
    v: &mut [f64],
    a: usize,
    b: usize,
    o: usize,
    n: usize,
    ep: f64,
    sem: f64,
    em: f64,
    sep: f64,
    p0: f64,
    q0: f64,
    p1: f64,
    q1: f64,
) -> f64
    requires { (n % 2 ≡ 0) × (n ≤ b + 1) × Apart (length v.old) a n o (2 * n) × Apart (length v.old) (b + 1 - n) n o (2 * n) }
    ensures v_after { v.new ≡ put v.old o
        (tabulate
        (forward_rule ep sem em sep (alternating p0 p1) (alternating q0 q1) (entries v.old a) (from_end v.old (b + 1 - n) n))
        (2 * n)) }
    ensures value { result ≡ top
        (forward_rule ep sem em sep (alternating p0 p1) (alternating q0 q1) (entries v.old a) (from_end v.old (b + 1 - n) n))
        (2 * n) }
{
    let mut m = no_entries();
    for i in (0..n).step_by(2) {
        let a0 = v[a + i];
        let b0 = v[b - i];
        let a1 = v[a + i + 1];
        let b1 = v[b - i - 1];
        let r = Four {
            a: (ep * a0 + sem * b0) * p0,
            b: (em * a0 + sep * b0) * q0,
            c: (ep * a1 + sem * b1) * p1,
            d: (em * a1 + sep * b1) * q1,
        };
        v[o + 2 * i] = r.a;
        v[o + 2 * i + 1] = r.b;
        v[o + 2 * i + 2] = r.c;
        v[o + 2 * i + 3] = r.d;
        m = joined(m, r);
    }
    larger_of(larger_of(m.a, m.c), larger_of(m.b, m.d))
}

// The step from the half of 2 * 2 ^ g entries at src to that at dst, run by run. Returns its largest entry.
fn forward_runs(
    v: &mut [f64],
    src: usize,
    dst: usize,
    g: usize,
    ep: f64,
    sem: f64,
    em: f64,
    sep: f64,
    bits: &[usize; 4],
    n: usize,
    up: &[f64; 16],
    down: &[f64; 16],
) -> f64
    requires { (1 ≤ g) × (g < 23) × Apart (length v.old) src (2 * 2 ^ g) dst (2 * 2 ^ g) × Rising bits.now n (g + 1) }
    ensures v_after { v.new ≡ put v.old dst
        (tabulate
        (forward_rule ep sem em sep (weights bits.now n up.now) (weights bits.now n down.now)
        (entries v.old src) (from_end v.old src (2 * 2 ^ g)))
        (2 * 2 ^ g)) }
    ensures value { result ≡ top (entries v.new dst) (2 * 2 ^ g) }
{
    let StepRuns { end, e, size, one } = step_runs(bits, n, g);
    let last = src + 2 * end - 1;
    let mut most = 0.0;
    for k in (0..end).step_by(size) {
        let m = pattern_of(k, bits, n);
        let j = m + one;
        let p0 = up[m];
        let q0 = down[m];
        let p1 = up[j];
        let q1 = down[j];
        let r = forward_run(
            v,
            src + k,
            last - k,
            dst + 2 * k,
            size,
            ep,
            sem,
            em,
            sep,
            p0,
            q0,
            p1,
            q1,
        );
        most = larger_of(most, r);
    }
    most
}

// The forward step from the half at place src to place dst: from a symmetric half, or from an antisymmetric one. Returns the largest entry of what it
// wrote.
pub fn half_forward(
    room: &mut [f64],
    src: usize,
    dst: usize,
    w: usize,
    ep: f64,
    em: f64,
    antisymmetric: bool,
    bits: &[usize; 4],
    count: usize,
    up: &[f64; 16],
    down: &[f64; 16],
) -> f64
    requires { Places (length room.old) w src dst × Rising bits.now count (w - 1) }
    ensures room_after { (s : Step Float) (sc : Float)
        → Tabled s sc (tables count ep em bits.now up.now down.now)
        → room.new ≡ put room.old (dst * 2 ^ w)
        (tabulate (forward_half w s sc (negated_if antisymmetric) (entries room.old (src * 2 ^ w))) (2 ^ (w - 1))) }
    ensures value { result ≡ top (entries room.new (dst * 2 ^ w)) (2 ^ (w - 1)) }
{
    let size = pow2(w);
    let s = src * size;
    let o = dst * size;
    let sem = negated_if(antisymmetric, em);
    let sep = negated_if(antisymmetric, ep);
    if w > 2 {
        return forward_runs(room, s, o, w - 2, ep, sem, em, sep, bits, count, up, down);
    }
    let half = pow2(w - 1);
    let a = room[s];
    let b = room[s + half - 1];
    let p = up[0];
    let q = down[0];
    store_few(
        room,
        o,
        half,
        (ep * a + sem * b) * p,
        (em * a + sep * b) * q,
    )
}
