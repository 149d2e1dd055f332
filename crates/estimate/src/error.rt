// The mean of a total, and its standard error.
ghost use Rattle.std.specs.Prelude.{◌≡◌};
ghost use Rattle.estimate.specs.Estimates.{at_least_zero, error_of, mean_error_of};

use crate::MeanError;
use sqrt::sqrt;

// A variance below zero comes of rounding and counts as +0.0, and so does -0.0.
pub fn at_least_zero(v: f64) -> f64
    ensures { result ≡ at_least_zero v }
{
    if 0.0 < v { v } else { 0.0 }
}

fn error_of(n: f64, squares: f64, fourths: f64) -> f64
    ensures { result ≡ error_of n squares fourths }
{
    let m = squares / n;
    let variance = (fourths / n - m * m) * n / (n - 1.0);
    sqrt(at_least_zero(variance) / n)
}

// For two configurations or more.
pub fn mean_error(n: f64, squares: f64, fourths: f64) -> MeanError
    ensures { result ≡ mean_error_of n squares fourths }
{
    MeanError {
        mean: squares / n,
        error: error_of(n, squares, fourths),
    }
}
