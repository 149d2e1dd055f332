// The columns of a sheet: the mean and the standard error of every beta and pair, from their sums.
#![tactic(auto)]

ghost use Rattle.std.specs.Prelude.{◌≡◌, length};
ghost use Rattle.refusals.specs.Numbers.{refused};
ghost use Rattle.estimates.specs.Columns.{mean_column, error_column, Columns};

use estimate::estimate;
use refusals::Refusal;

mod order;
mod table;

pub use order::bad_sums;
use order::refuse;
use table::put_estimate;

// Every row.
fn fill_columns(
    count: usize,
    squares: &[f64],
    fourths: &[f64],
    means: &mut [f64],
    errors: &mut [f64],
)
    requires { (length fourths.now ≡ length squares.now) × (length means.old ≡ length squares.now)
        × (length errors.old ≡ length squares.now) }
    ensures means_after { means.new ≡ mean_column count squares.now fourths.now means.old }
    ensures errors_after { errors.new ≡ error_column count squares.now fourths.now errors.old }
{
    for i in 0..squares.len() {
        let answer = estimate(count, squares[i], fourths[i]);
        put_estimate(means, errors, i, answer);
    }
}

// Writes each place's mean to `means` and its standard error to `errors`; one configuration has no error, and `errors` stays.
pub fn estimates(
    count: usize,
    squares: &[f64],
    fourths: &[f64],
    means: &mut [f64],
    errors: &mut [f64],
) -> Result<(), Refusal>
    ensures { Columns count squares.now fourths.now (refused result) means.old means.new
        errors.old errors.new }
{
    refuse(count, squares, fourths, means.len(), errors.len())?;
    fill_columns(count, squares, fourths, means, errors);
    Ok(())
}
