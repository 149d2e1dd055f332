// The largest entry of a part of a list, in sixteen lanes.
#![tactic(auto)]

ghost use Rattle.std.specs.Prelude.{◌≡◌, ◌+◌, ◌*◌, ◌^◌, ◌≤◌, length, get_or};
ghost use Rattle.std.specs.Float.{nan};
ghost use Rattle.limits.specs.Limits.{most_window};
ghost use Rattle.list_laws.specs.Part.{part};
ghost use Rattle.transfer_matrix.specs.Rounded.{ieee};
ghost use Rattle.transfer_matrix.specs.Sweep as S;
ghost use Rattle.largest_entry.specs.Larger.{larger};

use step_tables::pow2;

// x where it is above a, else a: so a NaN is passed over.
pub fn larger_of(a: f64, x: f64) -> f64
    ensures { result ≡ larger a x }
{
    if x > a { x } else { a }
}

// The largest of the n entries at `at`, one after the other: of a vector with fewer than sixteen.
fn one_lane(v: &[f64], at: usize, n: usize) -> f64
    requires { at + n ≤ length v.now }
    ensures { result ≡ S.largest ieee ieee.𝟘 (part v.now at n) }
{
    let mut a = 0.0;
    for i in 0..n {
        a = larger_of(a, v[at + i]);
    }
    a
}

// Four numbers side by side: entries, or the largest so far of four lanes.
#[derive(Clone, Copy)]
pub struct Four {
    pub a: f64,
    pub b: f64,
    pub c: f64,
    pub d: f64,
}

// Four lanes that no entry has passed.
pub fn no_entries() -> Four
    ensures { (result.a ≡ ieee.𝟘) × (result.b ≡ ieee.𝟘) × (result.c ≡ ieee.𝟘) × (result.d ≡ ieee.𝟘) }
{
    Four {
        a: 0.0,
        b: 0.0,
        c: 0.0,
        d: 0.0,
    }
}

// The four entries at `at`.
fn four_at(v: &[f64], at: usize) -> Four
    requires { at + 4 ≤ length v.now }
    ensures { (result.a ≡ get_or v.now at nan) × (result.b ≡ get_or v.now (at + 1) nan)
        × (result.c ≡ get_or v.now (at + 2) nan) × (result.d ≡ get_or v.now (at + 3) nan) }
{
    Four {
        a: v[at],
        b: v[at + 1],
        c: v[at + 2],
        d: v[at + 3],
    }
}

// The larger of each two.
pub fn joined(l: Four, m: Four) -> Four
    ensures { (result.a ≡ larger l.a m.a) × (result.b ≡ larger l.b m.b)
        × (result.c ≡ larger l.c m.c) × (result.d ≡ larger l.d m.d) }
{
    Four {
        a: larger_of(l.a, m.a),
        b: larger_of(l.b, m.b),
        c: larger_of(l.c, m.c),
        d: larger_of(l.d, m.d),
    }
}

// The largest of the 16 n entries at `at`, four lanes in each of a, b, c and d.
fn sixteen_lanes(v: &[f64], at: usize, n: usize) -> f64
    requires { at + 16 * n ≤ length v.now }
    ensures { result ≡ S.largest ieee ieee.𝟘 (part v.now at (16 * n)) }
{
    let mut a = no_entries();
    let mut b = a;
    let mut c = a;
    let mut d = a;
    for t in 0..n {
        let from = at + 16 * t;
        a = joined(a, four_at(v, from));
        b = joined(b, four_at(v, from + 4));
        c = joined(c, four_at(v, from + 8));
        d = joined(d, four_at(v, from + 12));
    }
    let l = joined(joined(joined(a, b), c), d);
    larger_of(larger_of(larger_of(l.a, l.b), l.c), l.d)
}

// The largest of the 2 to the e entries at `at`. With e below 4 they are fewer than the lanes.
pub fn largest_from(v: &[f64], at: usize, e: usize) -> f64
    requires { (e ≤ most_window) × (at + 2 ^ e ≤ length v.now) }
    ensures { result ≡ S.largest ieee ieee.𝟘 (part v.now at (2 ^ e)) }
{
    let n = pow2(e);
    if e < 4 {
        return one_lane(v, at, n);
    }
    sixteen_lanes(v, at, n / 16)
}
