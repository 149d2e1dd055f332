// Where a coupling stands on the grid of the multiples of 1/128 from -4 to 4.
#![tactic(auto)]

ghost use Rattle.std.specs.Prelude.{◌≡◌, ◌≤◌, false};
ghost use Rattle.coupling_grid.specs.Grid.{At, place_of, off_grid};

// Whether a coupling is off the grid: NaN, beyond 4 in size, or no multiple of 1/128. Up to 4 in size the product is exact.
pub fn off_grid(x: f64) -> bool
    ensures { result ≡ off_grid x }
{
    if x <= 4.0 {
        if -4.0 <= x {
            let steps = x * 128.0;
            let whole = std::num::truncating_f64_to_i64(steps);
            return std::num::nearest_i64_to_f64(whole) != steps;
        }
    }
    true
}

// The place of a coupling that is on the grid. Product and sum are exact, and the sum is a whole number from 0 to 1024.
pub fn place(x: f64) -> usize
    requires { off_grid x ≡ false }
    ensures { (At result ≡ place_of x) × (result ≤ 1024) }
{
    (x * 128.0 + 512.0) as u32 as usize
}
