// Two backward steps of a half vector, by runs.
#![tactic(auto)]

ghost use Rattle.std.specs.Prelude.{◌≡◌, ◌+◌, ◌*◌, ◌-◌, ◌%◌, ◌^◌, ◌<◌, ◌≤◌, length, Float};
ghost use Rattle.list_laws.specs.Tabulate.{tabulate};
ghost use Rattle.list_laws.specs.Part.{Apart};
ghost use Rattle.transfer_matrix.specs.Job.{Step};
ghost use Rattle.step_tables.specs.Step.{Rising, Tabled, tables};
ghost use Rattle.step_tables.specs.Rule.{entries, weights, alternating};
ghost use Rattle.step_tables.specs.Place.{Places, hold};
ghost use Rattle.half_vectors.specs.Half.{backward_half};
ghost use Rattle.step_runs.specs.Rule.{in_four};
ghost use Rattle.step_runs.specs.OpposedRule.{end_weights};
ghost use Rattle.two_steps_backward.specs.Inward.{Parts, inward};
ghost use Rattle.two_steps_backward.specs.Rule.{front_twice, end_twice};

use step_runs::{Four, TwoStepRuns, four_at, opposed, two_step_runs};
use step_tables::{pattern_of, pow2};

// A run of n places, two an iteration: source at s; targets at a and c, and counted from their end at b and d. Neighbours are stored one after
// the other.
fn backward_run(
    v: &mut [f64],
    s: usize,
    a: usize,
    b: usize,
    c: usize,
    d: usize,
    n: usize,
    ep: f64,
    em: f64,
    ep2: f64,
    em2: f64,
    p: Four,
    q: Four,
    e: Four,
    f: Four,
)
    requires { (n % 2 ≡ 0) × Parts (length v.old) a b c d n × Apart (length v.old) s (4 * n) a n
        × Apart (length v.old) s (4 * n) b n × Apart (length v.old) s (4 * n) c n × Apart (length v.old) s (4 * n) d n }
    ensures { v.new ≡ inward v.old a b c d
        (front_twice ep em ep2 em2 (alternating p.first p.third) (alternating q.first q.third)
        (in_four e.first e.second e.third e.fourth) (in_four f.first f.second f.third f.fourth) (entries v.old s))
        (end_twice ep em em2 ep2 (alternating p.second p.fourth) (alternating q.second q.fourth)
        (in_four e.first e.second e.third e.fourth) (in_four f.first f.second f.third f.fourth) (entries v.old s))
        (end_twice em ep em2 ep2 (alternating p.second p.fourth) (alternating q.second q.fourth)
        (in_four e.first e.second e.third e.fourth) (in_four f.first f.second f.third f.fourth) (entries v.old s))
        (front_twice em ep ep2 em2 (alternating p.first p.third) (alternating q.first q.third)
        (in_four e.first e.second e.third e.fourth) (in_four f.first f.second f.third f.fourth) (entries v.old s)) n }
{
    let Four {
        first: p0,
        second: p1,
        third: p2,
        fourth: p3,
    } = p;
    let Four {
        first: q0,
        second: q1,
        third: q2,
        fourth: q3,
    } = q;
    let Four {
        first: e0,
        second: e1,
        third: e2,
        fourth: e3,
    } = e;
    let Four {
        first: f0,
        second: f1,
        third: f2,
        fourth: f3,
    } = f;
    let mut i = 0usize;
    while i < n {
        let r = n - i;
        let a0 = v[s + 4 * i] * e0;
        let b0 = v[s + 4 * i + 1] * f0;
        let c0 = v[s + 4 * i + 2] * e1;
        let d0 = v[s + 4 * i + 3] * f1;
        let a1 = v[s + 4 * i + 4] * e2;
        let b1 = v[s + 4 * i + 5] * f2;
        let c1 = v[s + 4 * i + 6] * e3;
        let d1 = v[s + 4 * i + 7] * f3;
        let k0 = (ep2 * a0 + em2 * b0) * p0;
        let k1 = (ep2 * a1 + em2 * b1) * p2;
        let l0 = (ep2 * c0 + em2 * d0) * q0;
        let l1 = (ep2 * c1 + em2 * d1) * q2;
        let m0 = (em2 * a0 + ep2 * b0) * q1;
        let m1 = (em2 * a1 + ep2 * b1) * q3;
        let n0 = (em2 * c0 + ep2 * d0) * p1;
        let n1 = (em2 * c1 + ep2 * d1) * p3;
        v[a + i] = ep * k0 + em * l0;
        v[a + i + 1] = ep * k1 + em * l1;
        v[b + r - 2] = ep * n1 + em * m1;
        v[b + r - 1] = ep * n0 + em * m0;
        v[c + i] = em * n0 + ep * m0;
        v[c + i + 1] = em * n1 + ep * m1;
        v[d + r - 2] = em * k1 + ep * l1;
        v[d + r - 1] = em * k0 + ep * l0;
        i += 2;
    }
}

// Both steps from the half of 2 * 2 ^ h entries at src to the one at dst, run by run: a run goes with its opposite, which begins at t.
fn backward_runs(
    v: &mut [f64],
    src: usize,
    dst: usize,
    h: usize,
    ep: f64,
    em: f64,
    bits: &[usize; 4],
    n: usize,
    up: &[f64; 16],
    down: &[f64; 16],
    ep2: f64,
    em2: f64,
    bits2: &[usize; 4],
    n2: usize,
    up2: &[f64; 16],
    down2: &[f64; 16],
)
    requires { (2 ≤ h) × (h < 23) × Apart (length v.old) src (2 * 2 ^ h) dst (2 * 2 ^ h) × Rising bits.now n (h + 1)
        × Rising bits2.now n2 (h + 1) }
    ensures { v.new ≡ inward v.old dst (dst + 2 ^ (h - 1)) (dst + 2 ^ h) (dst + 2 ^ h + 2 ^ (h - 1))
        (front_twice ep em ep2 em2 (weights bits.now n up.now) (weights bits.now n down.now)
        (weights bits2.now n2 up2.now) (weights bits2.now n2 down2.now) (entries v.old src))
        (end_twice ep em em2 ep2 (end_weights h bits.now n up.now) (end_weights h bits.now n down.now)
        (weights bits2.now n2 up2.now) (weights bits2.now n2 down2.now) (entries v.old src))
        (end_twice em ep em2 ep2 (end_weights h bits.now n up.now) (end_weights h bits.now n down.now)
        (weights bits2.now n2 up2.now) (weights bits2.now n2 down2.now) (entries v.old src))
        (front_twice em ep ep2 em2 (weights bits.now n up.now) (weights bits.now n down.now)
        (weights bits2.now n2 up2.now) (weights bits2.now n2 down2.now) (entries v.old src))
        (2 ^ (h - 1)) }
{
    let TwoStepRuns {
        end,
        quarter,
        e,
        size,
        one,
        low,
        two,
    } = two_step_runs(bits, n, bits2, n2, h);
    let o = dst + quarter;
    let mut k = 0usize;
    while k < end {
        let t = quarter - k - size;
        let m = pattern_of(k, bits, n);
        let r = pattern_of(t, bits, n);
        let j = pattern_of(2 * k, bits2, n2);
        let p = opposed(up, m, r, one);
        let q = opposed(down, m, r, one);
        let f = four_at(up2, j, low, two);
        let g = four_at(down2, j, low, two);
        backward_run(
            v,
            src + 4 * k,
            dst + k,
            dst + t,
            o + k,
            o + t,
            size,
            ep,
            em,
            ep2,
            em2,
            p,
            q,
            f,
            g,
        );
        k += size;
    }
}

// The two backward steps from the half at place src to place dst. The first tables are the earlier vertex's, whose step is the second.
pub fn half_stride_backward(
    room: &mut [f64],
    src: usize,
    dst: usize,
    w: usize,
    ep: f64,
    em: f64,
    bits: &[usize; 4],
    count: usize,
    up: &[f64; 16],
    down: &[f64; 16],
    ep2: f64,
    em2: f64,
    bits2: &[usize; 4],
    count2: usize,
    up2: &[f64; 16],
    down2: &[f64; 16],
)
    requires { (4 ≤ w) × Places (length room.old) w src dst × Rising bits.now count (w - 1) × Rising bits2.now count2 (w - 1) }
    ensures { (s : Step Float) (sc : Float) (s' : Step Float) (sc' : Float)
        → Tabled s sc (tables count ep em bits.now up.now down.now)
        → Tabled s' sc' (tables count2 ep2 em2 bits2.now up2.now down2.now)
        → room.new ≡ hold room.old w dst
        (tabulate (backward_half w s sc (backward_half w s' sc' (entries room.old (src * 2 ^ w)))) (2 ^ (w - 1))) }
{
    let size = pow2(w);
    backward_runs(
        room,
        src * size,
        dst * size,
        w - 2,
        ep,
        em,
        bits,
        count,
        up,
        down,
        ep2,
        em2,
        bits2,
        count2,
        up2,
        down2,
    );
}
