// What refuses the sums of a sheet, and its columns.
ghost use Rattle.std.specs.Prelude.{◌≡◌, length};
ghost use Rattle.refusals.specs.Numbers.{refused};
ghost use Rattle.estimates.specs.Columns.{bad_sums, refusal_of};

use estimate::{bad_count, in_order};
use refusals::Refusal;

// Every place is looked at before anything is written.
pub fn bad_sums(count: usize, squares: &[f64], fourths: &[f64]) -> bool
    requires { length squares.now ≡ length fourths.now }
    ensures { result ≡ bad_sums count squares.now fourths.now }
{
    if bad_count(count) {
        return true;
    }
    let n = count as f64;
    for i in 0..squares.len() {
        if !in_order(n, squares[i], fourths[i]) {
            return true;
        }
    }
    false
}

pub fn refuse(
    count: usize,
    squares: &[f64],
    fourths: &[f64],
    means: usize,
    errors: usize,
) -> Result<(), Refusal>
    ensures { refused result ≡ refusal_of count squares.now fourths.now means errors }
{
    if squares.len() != fourths.len() {
        return Err(Refusal::ListLengths);
    }
    if means != squares.len() {
        return Err(Refusal::Buffer);
    }
    if errors != squares.len() {
        return Err(Refusal::Buffer);
    }
    if bad_sums(count, squares, fourths) {
        return Err(Refusal::Sums);
    }
    Ok(())
}
