// Two forward steps of a half vector, by runs.
#![tactic(auto)]

ghost use Rattle.std.specs.Prelude.{◌≡◌, ◌+◌, ◌*◌, ◌-◌, ◌%◌, ◌^◌, ◌<◌, ◌≤◌, length, Float};
ghost use Rattle.list_laws.specs.Tabulate.{tabulate};
ghost use Rattle.list_laws.specs.Part.{Apart, put};
ghost use Rattle.transfer_matrix.specs.Job.{Step};
ghost use Rattle.step_tables.specs.Step.{Rising, Tabled, tables};
ghost use Rattle.step_tables.specs.Rule.{entries, from_end, weights, alternating};
ghost use Rattle.step_tables.specs.Place.{Places, hold};
ghost use Rattle.half_vectors.specs.Half.{forward_half, negated_if};
ghost use Rattle.step_runs.specs.Rule.{in_four};
ghost use Rattle.step_runs.specs.OpposedRule.{end_weights};
ghost use Rattle.two_steps_forward.specs.Rule.{half_twice};

use half_vectors::negated_if;
use step_runs::{Four, TwoStepRuns, four_at, opposed, two_step_runs};
use step_tables::{pattern_of, pow2};

// A run of n places, two an iteration: sources at a and c, and counted from their end at b and d; target at o. All of an iteration is read before its
// first store.
fn forward_run(
    v: &mut [f64],
    a: usize,
    b: usize,
    c: usize,
    d: usize,
    o: usize,
    n: usize,
    ep: f64,
    sem: f64,
    em: f64,
    sep: f64,
    ep2: f64,
    sem2: f64,
    em2: f64,
    sep2: f64,
    p: Four,
    q: Four,
    e: Four,
    f: Four,
)
    requires { (n % 2 ≡ 0) × Apart (length v.old) a n o (4 * n) × Apart (length v.old) b n o (4 * n)
        × Apart (length v.old) c n o (4 * n) × Apart (length v.old) d n o (4 * n) }
    ensures { v.new ≡ put v.old o
        (tabulate
        (half_twice ep sem em sep ep2 sem2 em2 sep2 (alternating p.first p.third) (alternating q.first q.third) (alternating p.second p.fourth)
        (alternating q.second q.fourth) (in_four e.first e.second e.third e.fourth) (in_four f.first f.second f.third f.fourth)
        (entries v.old a) (from_end v.old b n) (entries v.old c) (from_end v.old d n))
        (4 * n)) }
{
    let Four {
        first: p0,
        second: p1,
        third: p2,
        fourth: p3,
    } = p;
    let Four {
        first: q0,
        second: q1,
        third: q2,
        fourth: q3,
    } = q;
    let Four {
        first: e0,
        second: e1,
        third: e2,
        fourth: e3,
    } = e;
    let Four {
        first: f0,
        second: f1,
        third: f2,
        fourth: f3,
    } = f;
    let mut i = 0usize;
    while i < n {
        let r = n - i;
        let a0 = v[a + i];
        let a1 = v[a + i + 1];
        let b0 = v[b + r - 1];
        let b1 = v[b + r - 2];
        let c0 = v[c + i];
        let c1 = v[c + i + 1];
        let d0 = v[d + r - 1];
        let d1 = v[d + r - 2];
        let k0 = (ep * a0 + sem * b0) * p0;
        let l0 = (em * a0 + sep * b0) * q0;
        let m0 = (em * d0 + sep * c0) * q1;
        let n0 = (ep * d0 + sem * c0) * p1;
        let k1 = (ep * a1 + sem * b1) * p2;
        let l1 = (em * a1 + sep * b1) * q2;
        let m1 = (em * d1 + sep * c1) * q3;
        let n1 = (ep * d1 + sem * c1) * p3;
        v[o + 4 * i] = (ep2 * k0 + sem2 * m0) * e0;
        v[o + 4 * i + 1] = (em2 * k0 + sep2 * m0) * f0;
        v[o + 4 * i + 2] = (ep2 * l0 + sem2 * n0) * e1;
        v[o + 4 * i + 3] = (em2 * l0 + sep2 * n0) * f1;
        v[o + 4 * i + 4] = (ep2 * k1 + sem2 * m1) * e2;
        v[o + 4 * i + 5] = (em2 * k1 + sep2 * m1) * f2;
        v[o + 4 * i + 6] = (ep2 * l1 + sem2 * n1) * e3;
        v[o + 4 * i + 7] = (em2 * l1 + sep2 * n1) * f3;
        i += 2;
    }
}

// Both steps from the half of 2 * 2 ^ h entries at src to the one at dst, run by run: a run goes with its opposite, which begins at t.
fn forward_runs(
    v: &mut [f64],
    src: usize,
    dst: usize,
    h: usize,
    ep: f64,
    sem: f64,
    em: f64,
    sep: f64,
    bits: &[usize; 4],
    n: usize,
    up: &[f64; 16],
    down: &[f64; 16],
    ep2: f64,
    sem2: f64,
    em2: f64,
    sep2: f64,
    bits2: &[usize; 4],
    n2: usize,
    up2: &[f64; 16],
    down2: &[f64; 16],
)
    requires { (2 ≤ h) × (h < 23) × Apart (length v.old) src (2 * 2 ^ h) dst (2 * 2 ^ h) × Rising bits.now n (h + 1)
        × Rising bits2.now n2 (h + 1) }
    ensures { v.new ≡ put v.old dst
        (tabulate
        (half_twice ep sem em sep ep2 sem2 em2 sep2 (weights bits.now n up.now) (weights bits.now n down.now)
        (end_weights h bits.now n up.now) (end_weights h bits.now n down.now)
        (weights bits2.now n2 up2.now) (weights bits2.now n2 down2.now)
        (entries v.old src) (from_end v.old src (2 * 2 ^ h))
        (entries v.old (src + 2 ^ h)) (from_end v.old src (2 ^ h)))
        (2 * 2 ^ h)) }
{
    let TwoStepRuns {
        end,
        quarter,
        e,
        size,
        one,
        low,
        two,
    } = two_step_runs(bits, n, bits2, n2, h);
    let s = src + quarter;
    let mut k = 0usize;
    while k < end {
        let t = quarter - k - size;
        let m = pattern_of(k, bits, n);
        let r = pattern_of(t, bits, n);
        let j = pattern_of(2 * k, bits2, n2);
        let p = opposed(up, m, r, one);
        let q = opposed(down, m, r, one);
        let f = four_at(up2, j, low, two);
        let g = four_at(down2, j, low, two);
        forward_run(
            v,
            src + k,
            s + t,
            s + k,
            src + t,
            dst + 4 * k,
            size,
            ep,
            sem,
            em,
            sep,
            ep2,
            sem2,
            em2,
            sep2,
            p,
            q,
            f,
            g,
        );
        k += size;
    }
}

// The two forward steps from the half at place src to place dst.
pub fn half_stride_forward(
    room: &mut [f64],
    src: usize,
    dst: usize,
    w: usize,
    antisymmetric: bool,
    ep: f64,
    em: f64,
    bits: &[usize; 4],
    count: usize,
    up: &[f64; 16],
    down: &[f64; 16],
    ep2: f64,
    em2: f64,
    bits2: &[usize; 4],
    count2: usize,
    up2: &[f64; 16],
    down2: &[f64; 16],
)
    requires { (4 ≤ w) × Places (length room.old) w src dst × Rising bits.now count (w - 1) × Rising bits2.now count2 (w - 1) }
    ensures { (s : Step Float) (sc : Float) (s' : Step Float) (sc' : Float)
        → Tabled s sc (tables count ep em bits.now up.now down.now)
        → Tabled s' sc' (tables count2 ep2 em2 bits2.now up2.now down2.now)
        → room.new ≡ hold room.old w dst
        (tabulate (forward_half w s' sc' (negated_if antisymmetric) (forward_half w s sc (negated_if antisymmetric) (entries room.old (src * 2 ^ w)))) (2 ^ (w - 1))) }
{
    let size = pow2(w);
    let sem = negated_if(antisymmetric, em);
    let sep = negated_if(antisymmetric, ep);
    let sem2 = negated_if(antisymmetric, em2);
    let sep2 = negated_if(antisymmetric, ep2);
    forward_runs(
        room,
        src * size,
        dst * size,
        w - 2,
        ep,
        sem,
        em,
        sep,
        bits,
        count,
        up,
        down,
        ep2,
        sem2,
        em2,
        sep2,
        bits2,
        count2,
        up2,
        down2,
    );
}
