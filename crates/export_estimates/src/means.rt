// The estimate that a count and two sums give, and the columns of a sheet.
ghost use Rattle.std.specs.Prelude.{◌≡◌};
ghost use Rattle.refusals.specs.Numbers.{refused};
ghost use Rattle.estimate.specs.Estimates.{estimate_of, mean_in, error_in};
ghost use Rattle.estimates.specs.Columns.{Columns};
ghost use Rattle.c_answers.specs.Estimated.{enough_of};

use c_answers::tell_estimate;

// As `estimate::estimate`: `enough` tells whether there are two configurations or more. Then `mean` and `error` are written, for one only
// `mean`; where the call is refused, all keep what they held.
#[unsafe(no_mangle)]
pub extern "C" fn copperhook_estimate(
    count: usize,
    squares: f64,
    fourths: f64,
    enough: &mut bool,
    mean: &mut f64,
    error: &mut f64,
) -> usize
    ensures value { result ≡ refused (estimate_of count squares fourths) }
    ensures enough_after { enough.new ≡ enough_of (estimate_of count squares fourths) enough.old }
    ensures mean_after { mean.new ≡ mean_in (estimate_of count squares fourths) mean.old }
    ensures error_after { error.new ≡ error_in (estimate_of count squares fourths) error.old }
{
    let answer = estimate::estimate(count, squares, fourths);
    tell_estimate(answer, enough, mean, error)
}

// As `estimates::estimates`.
#[unsafe(no_mangle)]
pub extern "C" fn copperhook_estimates(
    count: usize,
    squares: &[f64],
    fourths: &[f64],
    means: &mut [f64],
    errors: &mut [f64],
) -> usize
    ensures { Columns count squares.now fourths.now result means.old means.new
        errors.old errors.new }
{
    let answer = estimates::estimates(count, squares, fourths, means, errors);
    refusals::refused(answer)
}
