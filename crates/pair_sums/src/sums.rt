// The sums of two pairs, over the halves there and back, in one pass. A sum is one long chain of additions, each of which waits for the one
// before; four such chains side by side take less time than two after two.
ghost use Rattle.std.specs.Prelude.{◌≡◌, ℕ, ◌+◌, ◌*◌, ◌-◌, ◌%◌, ◌^◌, ◌≤◌, ◌<◌, length};
ghost use Rattle.limits.specs.Limits.{most_window};
ghost use Rattle.pair_sums.specs.Pair.{Within, Summed, Sourced, Begun, SumsOf};

use half_vectors::negated_if;
use step_tables::pow2;

// Where the sums of a pair are read: Z at f and b, N at g and b, subtracted where bits 0 and d of an index differ. For a direct pair g is f
// and d the distance; for a propagated pair d is the window.
#[derive(Clone, Copy)]
pub struct Source {
    pub f: usize,
    pub g: usize,
    pub b: usize,
    pub d: usize,
}

// The sums of a pair.
#[derive(Clone, Copy)]
pub struct Sums {
    pub z: f64,
    pub n: f64,
}

// The sums of two pairs.
#[derive(Drop)]
pub struct Both {
    pub first: Sums,
    pub second: Sums,
}

// One iteration there: the terms of the indexes i and i + 1. i is even and d is not 0, so both have one bit d.
pub fn terms_there(v: &[f64], at: Source, i: usize, s: Sums) -> Sums
    requires { Within (length v.now) (i + 2) at × (i % 2 ≡ 0) }
    ensures { (w : ℕ) → 1 ≤ w → i + 2 ≤ 2 ^ (w - 1) → Summed v.now at w i s → Summed v.now at w (i + 2) result }
{
    let Source { f, g, b, d } = at;
    let minus = (i >> d) % 2 == 1;
    let b0 = v[b + i];
    let b1 = v[b + (i + 1)];
    let z = s.z + v[f + i] * b0;
    let n = s.n + negated_if(minus, v[g + i] * b0);
    Sums {
        z: z + v[f + (i + 1)] * b1,
        n: n - negated_if(minus, v[g + (i + 1)] * b1),
    }
}

// One iteration back: the terms of the indexes i + 1 and i.
pub fn terms_back(v: &[f64], at: Source, i: usize, s: Sums) -> Sums
    requires { Within (length v.now) (i + 2) at × (i % 2 ≡ 0) }
    ensures { (w : ℕ) → 1 ≤ w → i + 2 ≤ 2 ^ (w - 1) → Summed v.now at w (2 ^ w - (i + 2)) s → Summed v.now at w (2 ^ w - i) result }
{
    let Source { f, g, b, d } = at;
    let minus = (i >> d) % 2 == 1;
    let b0 = v[b + i];
    let b1 = v[b + (i + 1)];
    let z = s.z + v[f + (i + 1)] * b1;
    let n = s.n - negated_if(minus, v[g + (i + 1)] * b1);
    Sums {
        z: z + v[f + i] * b0,
        n: n + negated_if(minus, v[g + i] * b0),
    }
}

// The sums over halves of one entry, which is taken there and back.
pub fn sums_of_one(v: &[f64], at: Source) -> Sums
    requires { Within (length v.now) 1 at }
    ensures { (w : ℕ) → w ≡ 1 → Summed v.now at w (2 ^ w) result }
{
    let Source { f, g, b, d: _ } = at;
    let p = v[f] * v[b];
    let q = v[g] * v[b];
    Sums {
        z: 0.0 + p + p,
        n: 0.0 + q + q,
    }
}

// The sums of two pairs over halves of two entries and more, two an iteration.
fn there_and_back(v: &[f64], x: Source, y: Source, w: usize) -> Both
    requires { (2 ≤ w) × (w ≤ most_window) × Within (length v.now) (2 ^ (w - 1)) x × Within (length v.now) (2 ^ (w - 1)) y }
    ensures { Summed v.now x w (2 ^ w) result.first × Summed v.now y w (2 ^ w) result.second }
{
    let mut s = Sums { z: 0.0, n: 0.0 };
    let mut t = s;
    let n = pow2(w - 2);
    for k in 0..n {
        s = terms_there(v, x, 2 * k, s);
        t = terms_there(v, y, 2 * k, t);
    }
    for k in (0..n).rev() {
        s = terms_back(v, x, 2 * k, s);
        t = terms_back(v, y, 2 * k, t);
    }
    Both {
        first: s,
        second: t,
    }
}

// The same by the numbers at which the places begin.
pub fn begins(room: &[f64], w: usize, s: Source) -> Source
    requires { Sourced (length room.now) w s }
    ensures { Begun w s result }
{
    let size = pow2(w);
    Source {
        f: s.f * size,
        g: s.g * size,
        b: s.b * size,
        d: s.d,
    }
}

// The sums of two pairs, each by the places of its halves.
pub fn half_sums_of_two(room: &[f64], w: usize, first: Source, second: Source) -> Both
    requires { Sourced (length room.now) w first × Sourced (length room.now) w second }
    ensures { SumsOf room.now w first result.first × SumsOf room.now w second result.second }
{
    let x = begins(room, w, first);
    let y = begins(room, w, second);
    if w == 1 {
        return Both {
            first: sums_of_one(room, x),
            second: sums_of_one(room, y),
        };
    }
    there_and_back(room, x, y, w)
}
