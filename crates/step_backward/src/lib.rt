// The backward step from half to half, by runs.
#![tactic(auto)]

ghost use Rattle.std.specs.Prelude.{◌≡◌, ◌+◌, ◌*◌, ◌-◌, ◌%◌, ◌^◌, ◌<◌, ◌≤◌, length, Float};
ghost use Rattle.list_laws.specs.Tabulate.{tabulate};
ghost use Rattle.list_laws.specs.Part.{Apart, put};
ghost use Rattle.transfer_matrix.specs.Job.{Step};
ghost use Rattle.step_tables.specs.Step.{Rising, Tabled, tables};
ghost use Rattle.step_tables.specs.Rule.{entries, weights, alternating, backward_rule};
ghost use Rattle.step_tables.specs.Place.{Places};
ghost use Rattle.largest_entry.specs.Larger.{larger};
ghost use Rattle.largest_entry.specs.Top.{top};
ghost use Rattle.step_backward.specs.Ends.{ends};
ghost use Rattle.step_backward.specs.Fold.{backward_fold};

use largest_entry::{Four, joined, larger_of, no_entries};
use step_runs::{StepRuns, step_runs, store_few};
use step_tables::{pattern_of, pow2};

// A run of n pairs, two an iteration: source at s, targets from lo up and from below hi down. Neighbours are stored one after the other, so that
// their stores are one. Returns the largest of the entries, each of an iteration in a lane of its own.
fn backward_run(
    v: &mut [f64],
    s: usize,
    lo: usize,
    hi: usize,
    n: usize,
    ep: f64,
    em: f64,
    p0: f64,
    q0: f64,
    p1: f64,
    q1: f64,
) -> f64
    requires { (n % 2 ≡ 0) × (lo + 2 * n ≤ hi) × Apart (length v.old) s (2 * n) lo n × Apart (length v.old) s (2 * n) (hi - n) n }
    ensures v_after { v.new ≡ ends v.old lo hi
        (backward_rule ep em (alternating p0 p1) (alternating q0 q1) (entries v.old s))
        (backward_rule em ep (alternating p0 p1) (alternating q0 q1) (entries v.old s)) n }
    ensures value { result ≡ larger
        (top (backward_rule ep em (alternating p0 p1) (alternating q0 q1) (entries v.old s)) n)
        (top (backward_rule em ep (alternating p0 p1) (alternating q0 q1) (entries v.old s)) n) }
{
    let mut m = no_entries();
    for i in (0..n).step_by(2) {
        let s0 = v[s + 2 * i] * p0;
        let t0 = v[s + 2 * i + 1] * q0;
        let s1 = v[s + 2 * i + 2] * p1;
        let t1 = v[s + 2 * i + 3] * q1;
        let r = Four {
            a: ep * s0 + em * t0,
            b: ep * s1 + em * t1,
            c: em * s1 + ep * t1,
            d: em * s0 + ep * t0,
        };
        v[lo + i] = r.a;
        v[lo + i + 1] = r.b;
        v[hi - i - 2] = r.c;
        v[hi - i - 1] = r.d;
        m = joined(m, r);
    }
    larger_of(larger_of(m.a, m.b), larger_of(m.d, m.c))
}

// The step from the half of 2 * 2 ^ g entries at src to that at dst, run by run. Returns its largest entry.
fn backward_runs(
    v: &mut [f64],
    src: usize,
    dst: usize,
    g: usize,
    ep: f64,
    em: f64,
    bits: &[usize; 4],
    n: usize,
    up: &[f64; 16],
    down: &[f64; 16],
) -> f64
    requires { (1 ≤ g) × (g < 23) × Apart (length v.old) src (2 * 2 ^ g) dst (2 * 2 ^ g) × Rising bits.now n (g + 1) }
    ensures v_after { v.new ≡ ends v.old dst (dst + 2 * 2 ^ g)
        (backward_rule ep em (weights bits.now n up.now) (weights bits.now n down.now)
        (entries v.old src))
        (backward_rule em ep (weights bits.now n up.now) (weights bits.now n down.now)
        (entries v.old src))
        (2 ^ g) }
    ensures value { result ≡ top (entries v.new dst) (2 * 2 ^ g) }
{
    let StepRuns { end, e, size, one } = step_runs(bits, n, g);
    let past = dst + 2 * end;
    let mut most = 0.0;
    for k in (0..end).step_by(size) {
        let m = pattern_of(k, bits, n);
        let j = m + one;
        let p0 = up[m];
        let q0 = down[m];
        let p1 = up[j];
        let q1 = down[j];
        let r = backward_run(
            v,
            src + 2 * k,
            dst + k,
            past - k,
            size,
            ep,
            em,
            p0,
            q0,
            p1,
            q1,
        );
        most = larger_of(most, r);
    }
    most
}

// The backward step from the half at place src to place dst. Returns the largest entry of what it wrote.
pub fn half_backward(
    room: &mut [f64],
    src: usize,
    dst: usize,
    w: usize,
    ep: f64,
    em: f64,
    bits: &[usize; 4],
    count: usize,
    up: &[f64; 16],
    down: &[f64; 16],
) -> f64
    requires { Places (length room.old) w src dst × Rising bits.now count (w - 1) }
    ensures room_after { (s : Step Float) (sc : Float)
        → Tabled s sc (tables count ep em bits.now up.now down.now)
        → room.new ≡ put room.old (dst * 2 ^ w)
        (tabulate (backward_fold w s sc (entries room.old (src * 2 ^ w))) (2 ^ (w - 1))) }
    ensures value { result ≡ top (entries room.new (dst * 2 ^ w)) (2 ^ (w - 1)) }
{
    let size = pow2(w);
    let s = src * size;
    let o = dst * size;
    if w > 2 {
        return backward_runs(room, s, o, w - 2, ep, em, bits, count, up, down);
    }
    let half = pow2(w - 1);
    let x = room[s] * up[0];
    let y = room[s + half - 1] * down[0];
    store_few(room, o, half, ep * x + em * y, em * x + ep * y)
}
