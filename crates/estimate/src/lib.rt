// The estimate that a count and two sums give: the mean of the squares, and its standard error.
#![tactic(auto)]

ghost use Rattle.std.specs.Prelude.{◌≡◌};
ghost use Rattle.estimate.specs.Estimates.{estimate_of};

mod answer;
mod error;
mod order;

pub use answer::{Estimate, MeanError, MeanSpread};
pub use error::at_least_zero;
use error::mean_error;
pub use order::{bad_count, in_order};
use refusals::Refusal;

pub fn estimate(count: usize, squares: f64, fourths: f64) -> Result<Estimate, Refusal>
    ensures { result ≡ estimate_of count squares fourths }
{
    if bad_count(count) {
        return Err(Refusal::Sums);
    }
    let n = count as f64;
    if !in_order(n, squares, fourths) {
        return Err(Refusal::Sums);
    }
    if count == 1 {
        return Ok(Estimate::TooFew(squares / n));
    }
    Ok(Estimate::Estimated(mean_error(n, squares, fourths)))
}
