// The mean of a complete total, and its spread.
ghost use Rattle.std.specs.Prelude.{◌≡◌};
ghost use Rattle.estimate_complete.specs.Complete.{mean_spread_of};

use estimate::{MeanSpread, at_least_zero};
use sqrt::sqrt;

pub fn mean_spread(n: f64, squares: f64, fourths: f64) -> MeanSpread
    ensures { result ≡ mean_spread_of n squares fourths }
{
    let mean = squares / n;
    let variance = fourths / n - mean * mean;
    MeanSpread {
        mean: mean,
        error: 0.0,
        spread: sqrt(at_least_zero(variance)),
    }
}
