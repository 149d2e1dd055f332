// What refuses the sums of a complete enumeration, and the columns for them.
ghost use Rattle.std.specs.Prelude.{◌≡◌};
ghost use Rattle.refusals.specs.Numbers.{refused};
ghost use Rattle.estimates_complete.specs.Columns.{refusal_of};

use estimate_complete::is_complete;
use estimates::bad_sums;
use refusals::Refusal;

// Every place is looked at before anything is written.
pub fn refuse(
    count: usize,
    squares: &[f64],
    fourths: &[f64],
    means: usize,
    errors: usize,
    spreads: usize,
) -> Result<(), Refusal>
    ensures { refused result ≡ refusal_of count squares.now fourths.now means errors spreads }
{
    if squares.len() != fourths.len() {
        return Err(Refusal::ListLengths);
    }
    if means != squares.len() {
        return Err(Refusal::Buffer);
    }
    if errors != squares.len() {
        return Err(Refusal::Buffer);
    }
    if spreads != squares.len() {
        return Err(Refusal::Buffer);
    }
    if !is_complete(count) {
        return Err(Refusal::Sums);
    }
    if bad_sums(count, squares, fourths) {
        return Err(Refusal::Sums);
    }
    Ok(())
}
