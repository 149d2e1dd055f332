// The tables of a step: they depend on the step's edges and the scale alone.
ghost use Rattle.std.specs.Prelude.{◌≡◌, cond, List, ℕ, ◌≤◌, eqb, length};
ghost use Rattle.std.specs.Float.{binary64};
ghost use Rattle.std.specs.Float.Ieee.{mul, div};
ghost use Rattle.transfer_matrix.specs.Rounded.{ieee};
ghost use Rattle.transfer_matrix.specs.Sweep as S;
ghost use Rattle.step_tables.specs.Step.{near_edges, left_edge, Filled};

use crate::pattern::pow2;

// f over x where b is 1, else f times x.
fn weighed(f: f64, x: f64, b: usize) -> f64
    ensures { result ≡ cond (eqb b 1) (div binary64 f x) (mul binary64 f x) }
{
    if b == 1 { f / x } else { f * x }
}

// The product of the first n factors at the pattern m.
fn product(factors: &[f64; 4], n: usize, m: usize) -> f64
    requires { n ≤ 4 }
    ensures { (bits : List ℕ) → result ≡ S.product ieee (near_edges factors.now bits 0 n) m ieee.𝟙 }
{
    let mut f = 1.0;
    let mut r = m;
    for i in 0..n {
        f = weighed(f, factors[i], r % 2);
        r = r / 2;
    }
    f
}

// The left edge's factor, or 1.0.
pub fn left_factor(linked: bool, left: f64) -> f64
    ensures { result ≡ S.ep ieee (left_edge linked left) }
{
    if linked { left } else { 1.0 }
}

// The Boltzmann factors of the first `count` near edges, with the new spin up and with it down.
pub fn fill_tables(factors: &[f64; 4], count: usize, scale: f64, up: &mut [f64], down: &mut [f64])
    requires { (count ≤ 4) × (16 ≤ length up.old) × (16 ≤ length down.old) }
    ensures { (bits : List ℕ) → Filled (near_edges factors.now bits 0 count) scale count up.new down.new }
{
    let full = pow2(count);
    for m in 0..full {
        let mirrored = full - 1 - m;
        let f = product(factors, count, m);
        up[m] = f * scale;
        down[mirrored] = f * scale;
    }
}
