// The sheet's table: row i is place i of both columns.
ghost use Rattle.std.specs.Prelude.{◌≡◌, ◌<◌, length, get_or, set};
ghost use Rattle.std.specs.Float.{nan};
ghost use Rattle.estimate.specs.Estimates.{mean_in, error_in};

use estimate::{Estimate, MeanError};
use refusals::Refusal;

fn put_row(means: &mut [f64], errors: &mut [f64], i: usize, row: MeanError)
    requires { (i < length means.old) × (i < length errors.old) }
    ensures means_after { means.new ≡ set means.old i row.mean }
    ensures errors_after { errors.new ≡ set errors.old i row.error }
{
    means[i] = row.mean;
    errors[i] = row.error;
}

// One sampled configuration has a mean and no error. A refused estimate leaves its row: `refuse` lets none through to here.
pub fn put_estimate(
    means: &mut [f64],
    errors: &mut [f64],
    i: usize,
    answer: Result<Estimate, Refusal>,
)
    requires { (i < length means.old) × (i < length errors.old) }
    ensures means_after { means.new ≡ set means.old i (mean_in answer (get_or means.old i nan)) }
    ensures errors_after { errors.new ≡ set errors.old i (error_in answer (get_or errors.old i nan)) }
{
    match answer {
        Ok(Estimate::Estimated(row)) => put_row(means, errors, i, row),
        Ok(Estimate::TooFew(mean)) => {
            means[i] = mean;
        }
        Ok(Estimate::Complete(all)) => {
            means[i] = all.mean;
            errors[i] = all.error;
        }
        Err(_) => {}
    }
}
