// The columns of a sheet over a complete enumeration: the mean, the error and the spread of every beta and pair, from their sums.
#![tactic(auto)]

ghost use Rattle.std.specs.Prelude.{◌≡◌, length};
ghost use Rattle.refusals.specs.Numbers.{refused};
ghost use Rattle.estimates_complete.specs.Columns.{mean_column, error_column, spread_column, CompleteColumns};

use estimate_complete::mean_spread;
use refusals::Refusal;

mod order;
mod table;

use order::refuse;
use table::put_row;

// Every row.
fn fill_columns(
    n: f64,
    squares: &[f64],
    fourths: &[f64],
    means: &mut [f64],
    errors: &mut [f64],
    spreads: &mut [f64],
)
    requires { (length fourths.now ≡ length squares.now) × (length means.old ≡ length squares.now)
        × (length errors.old ≡ length squares.now) × (length spreads.old ≡ length squares.now) }
    ensures means_after { means.new ≡ mean_column n squares.now }
    ensures errors_after { errors.new ≡ error_column squares.now }
    ensures spreads_after { spreads.new ≡ spread_column n squares.now fourths.now }
{
    for i in 0..squares.len() {
        let row = mean_spread(n, squares[i], fourths[i]);
        put_row(means, errors, spreads, i, row);
    }
}

// Writes each place's mean, error and spread to the three columns.
pub fn estimates_complete(
    count: usize,
    squares: &[f64],
    fourths: &[f64],
    means: &mut [f64],
    errors: &mut [f64],
    spreads: &mut [f64],
) -> Result<(), Refusal>
    ensures { CompleteColumns count squares.now fourths.now (refused result) means.old means.new
        errors.old errors.new spreads.old spreads.new }
{
    refuse(
        count,
        squares,
        fourths,
        means.len(),
        errors.len(),
        spreads.len(),
    )?;
    fill_columns(count as f64, squares, fourths, means, errors, spreads);
    Ok(())
}
