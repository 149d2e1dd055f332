// The estimate of a complete enumeration, and the columns of its sheet.
ghost use Rattle.std.specs.Prelude.{◌≡◌};
ghost use Rattle.refusals.specs.Numbers.{refused};
ghost use Rattle.estimate.specs.Estimates.{mean_in, error_in, spread_in};
ghost use Rattle.estimate_complete.specs.Complete.{complete_of};
ghost use Rattle.estimates_complete.specs.Columns.{CompleteColumns};

use c_answers::tell_complete;

// As `estimate_complete::estimate_complete`; where the call is refused, `mean`, `error` and `spread` keep what they held.
#[unsafe(no_mangle)]
pub extern "C" fn copperhook_estimate_complete(
    count: usize,
    squares: f64,
    fourths: f64,
    mean: &mut f64,
    error: &mut f64,
    spread: &mut f64,
) -> usize
    ensures value { result ≡ refused (complete_of count squares fourths) }
    ensures mean_after { mean.new ≡ mean_in (complete_of count squares fourths) mean.old }
    ensures error_after { error.new ≡ error_in (complete_of count squares fourths) error.old }
    ensures spread_after { spread.new ≡ spread_in (complete_of count squares fourths) spread.old }
{
    let answer = estimate_complete::estimate_complete(count, squares, fourths);
    tell_complete(answer, mean, error, spread)
}

// As `estimates_complete::estimates_complete`.
#[unsafe(no_mangle)]
pub extern "C" fn copperhook_estimates_complete(
    count: usize,
    squares: &[f64],
    fourths: &[f64],
    means: &mut [f64],
    errors: &mut [f64],
    spreads: &mut [f64],
) -> usize
    ensures { CompleteColumns count squares.now fourths.now result means.old means.new
        errors.old errors.new spreads.old spreads.new }
{
    let answer = estimates_complete::estimates_complete(
        count, squares, fourths, means, errors, spreads,
    );
    refusals::refused(answer)
}
