// The answers of two pairs, from where their sums are read.
ghost use Rattle.std.specs.Prelude.{◌≡◌, ◌<◌, length};
ghost use Rattle.pair_sums.specs.Pair.{Sourced};
ghost use Rattle.pair_correlations.specs.Sound.{soundly};
ghost use Rattle.pair_correlations.specs.Two.{WroteOne, WroteTwo};

use pair_sums::{Source, half_sums, half_sums_of_two};

// Is z finite and above zero?
pub fn is_sound(z: f64) -> bool
    ensures { result ≡ soundly z }
{
    if z > 0.0 {
        return z < 1.0 / 0.0;
    }
    false
}

// N over Z of the pair whose sums are read at x, to the result p. Returns whether Z is finite and above zero; where it is not, nothing is written.
fn write_one(room: &[f64], w: usize, x: Source, p: usize, results: &mut [f64]) -> bool
    requires { Sourced (length room.now) w x × (p < length results.old) }
    ensures { WroteOne room.now w x p results.old results.new result }
{
    let sums = half_sums(room, w, x);
    if !is_sound(sums.z) {
        return false;
    }
    results[p] = sums.n / sums.z;
    true
}

// N over Z of the pairs whose sums are read at x and y, to the results p and q, in one pass; q is p where one pair is alone. Returns whether both
// Z are finite and above zero; where one is not, nothing is written.
pub fn write_two(
    room: &[f64],
    w: usize,
    x: Source,
    y: Source,
    p: usize,
    q: usize,
    results: &mut [f64],
) -> bool
    requires { Sourced (length room.now) w x × Sourced (length room.now) w y × (p < length results.old) × (q < length results.old)
        × (q ≡ p → y ≡ x) }
    ensures { WroteTwo room.now w x y p q results.old results.new result }
{
    if q == p {
        return write_one(room, w, x, p, results);
    }
    let sums = half_sums_of_two(room, w, x, y);
    let first = sums.first;
    let second = sums.second;
    if !is_sound(first.z) {
        return false;
    }
    if !is_sound(second.z) {
        return false;
    }
    results[p] = first.n / first.z;
    results[q] = second.n / second.z;
    true
}
