// The bound as a double, and whether factors are near enough to one for it to be said.
ghost use Rattle.std.specs.Prelude.{◌≡◌, ◌<◌, ◌≤◌};
ghost use Rattle.limits.specs.Limits.{most_vertices, most_window};
ghost use Rattle.error_bound.specs.Bound.{error_bound, most_bits, inside_powers, near_one};

use step_tables::pow2;

// Of n vertices in the window w, with at most `near` short back edges each.
pub fn bound_of(n: usize, w: usize, near: usize) -> f64
    requires { (n ≤ most_vertices) × (w ≤ most_window) × (near ≤ 4) }
    ensures { result ≡ error_bound n w near }
{
    let roundings = 2 * (near + 5) * n + 2 * pow2(w) + 6;
    roundings as f64 * (1.0 / 9007199254740992.0)
}

// The most binary digits that factors may have: no more than 52, so that a power of two with so many is a double.
pub fn most_bits(w: usize, near: usize) -> usize
    requires { (w ≤ most_window) × (near ≤ 4) }
    ensures { result ≡ most_bits w near }
{
    let bits = (965 - w) / ((near + 1) * (2 * w + 8));
    if bits < 52 {
        return bits;
    }
    52
}

// Returns whether x is from 2^-bits to 2^bits.
fn inside_powers(x: f64, bits: usize) -> bool
    requires { bits < 53 }
    ensures { result ≡ inside_powers bits x }
{
    let most = pow2(bits) as f64;
    (x <= most) & (1.0 / most <= x)
}

// Returns whether every factor is from 2^-bits to 2^bits.
pub fn near_one(factors: &[f64], bits: usize) -> bool
    requires { bits < 53 }
    ensures { result ≡ near_one bits factors.now }
{
    for x in factors {
        if !inside_powers(*x, bits) {
            return false;
        }
    }
    true
}
