// The estimate of a complete enumeration. Nothing was sampled, so its error is +0.0; beside the mean stands the spread over configurations.
#![tactic(auto)]

ghost use Rattle.std.specs.Prelude.{◌≡◌};
ghost use Rattle.estimate_complete.specs.Complete.{complete_of};

use estimate::{Estimate, in_order};
use refusals::Refusal;

mod counts;
mod spread;

pub use counts::is_complete;
pub use spread::mean_spread;

pub fn estimate_complete(count: usize, squares: f64, fourths: f64) -> Result<Estimate, Refusal>
    ensures { result ≡ complete_of count squares fourths }
{
    if !is_complete(count) {
        return Err(Refusal::Sums);
    }
    let n = count as f64;
    if !in_order(n, squares, fourths) {
        return Err(Refusal::Sums);
    }
    Ok(Estimate::Complete(mean_spread(n, squares, fourths)))
}
