// The checks of the lists as they are lent, 1 to 4 and 21: one function a check, each with its test in the contract.
ghost use Rattle.std.specs.Prelude.{◌≡◌, not, ◌||◌, eqb, ltb, ◌<◌, length, get_or};
ghost use Rattle.std.specs.Float.Ieee.{lt};
ghost use Rattle.std.specs.Float.{nan};
ghost use Rattle.list_laws.specs.Search.{some};
ghost use Rattle.limits.specs.Limits.{most_vertices, most_edges, most_pairs, most_betas};
ghost use Rattle.refusals.specs.Edges.{dropping};
ghost use Rattle.refusals.specs.Request.{outside, bad_ends, oversized, some_oversized, unordered};

use limits::{BETAS, EDGES, PAIRS, VERTICES};

// 1. The vertex count is 0 or above 1,024.
pub fn bad_vertices(n: usize) -> bool
    ensures { result ≡ (eqb n 0 || ltb most_vertices n) }
{
    n == 0 || VERTICES < n
}

// 2. Lists of one kind differ in length, or there are over 4,096 edges, 256 pairs or 64 betas.
pub fn bad_lists(a: usize, b: usize, m: usize, us: usize, vs: usize, betas: usize) -> bool
    ensures { result ≡ (not (eqb a b) || not (eqb a m) || ltb most_edges a || not (eqb us vs) || ltb most_pairs us || ltb most_betas betas) }
{
    if a != b {
        return true;
    }
    if a != m {
        return true;
    }
    if EDGES < a {
        return true;
    }
    if us != vs {
        return true;
    }
    if PAIRS < us {
        return true;
    }
    BETAS < betas
}

// An end is outside the graph.
pub fn is_outside(n: usize, u: usize, v: usize) -> bool
    ensures { result ≡ outside n u v }
{
    if n <= u {
        return true;
    }
    n <= v
}

fn bad_edge(n: usize, x: usize, y: usize) -> bool
    ensures { result ≡ (eqb x y || outside n x y) }
{
    if x == y {
        return true;
    }
    is_outside(n, x, y)
}

// 3. An edge has equal ends or an end outside the graph.
pub fn bad_edges(n: usize, a: &[usize], b: &[usize]) -> bool
    requires { length b.now ≡ length a.now }
    ensures { result ≡ some (bad_ends n a.now b.now) (length a.now) }
{
    for i in 0..a.len() {
        if bad_edge(n, a[i], b[i]) {
            return true;
        }
    }
    false
}

fn is_oversized(x: f64) -> bool
    ensures { result ≡ oversized x }
{
    if -1024.0 <= x {
        if x <= 1024.0 {
            return false;
        }
    }
    true
}

// The magnitude at place i where the one at `dropped` counts as zero.
pub fn magnitude_dropping(m: &[f64], dropped: usize, i: usize) -> f64
    requires { i < length m.now }
    ensures { result ≡ get_or (dropping dropped m.now) i nan }
{
    if i == dropped { 0.0 } else { m[i] }
}

// Returns whether a number isn't finite, or its size is above 1,024; the one at `dropped` counts as zero.
fn some_oversized(m: &[f64], dropped: usize) -> bool
    ensures { result ≡ some_oversized (dropping dropped m.now) }
{
    for i in 0..m.len() {
        if is_oversized(magnitude_dropping(m, dropped, i)) {
            return true;
        }
    }
    false
}

// 4. A magnitude or beta isn't finite, or its size is above 1,024. The magnitude at `dropped` counts as zero.
pub fn bad_sizes(m: &[f64], dropped: usize, betas: &[f64]) -> bool
    ensures { result ≡ (some_oversized (dropping dropped m.now) || some_oversized betas.now) }
{
    if some_oversized(m, dropped) {
        return true;
    }
    some_oversized(betas, betas.len())
}

fn is_not_less(x: f64, y: f64) -> bool
    ensures { result ≡ not (lt x y) }
{
    !(x < y)
}

// 21. Betas don't rise strictly: some beta is not less than the next.
pub fn unordered_betas(betas: &[f64]) -> bool
    ensures { result ≡ unordered betas.now }
{
    for i in 1..betas.len() {
        if is_not_less(betas[i - 1], betas[i]) {
            return true;
        }
    }
    false
}
