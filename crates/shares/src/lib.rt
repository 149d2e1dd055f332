// What part of stored correlations is above zero, zero, below zero, and 1/2 or more in size: exact fractions over lists that are lent end to end.
#![tactic(auto)]

ghost use Rattle.std.specs.Prelude.{◌≡◌};
ghost use Rattle.shares.specs.Shares.{fractions, shares_of};

mod answer;
mod entries;
mod lists;

pub use answer::Shares;
use entries::count_kinds;
use euclid::reduce;
use lists::bad_lists;
use refusals::Refusal;

// Each count over all entries, in lowest terms.
fn fractions(above: u64, zeros: u64, below: u64, halves: u64, entries: u64) -> Shares
    ensures { result ≡ fractions above zeros below halves entries }
{
    Shares {
        above: reduce(above, entries),
        zero: reduce(zeros, entries),
        below: reduce(below, entries),
        half: reduce(halves, entries),
    }
}

// Lists of stored correlations, end to end, with their lengths. Of good entries those that are neither above nor below zero are zero.
pub fn shares(stored: &[f64], lengths: &[usize]) -> Result<Shares, Refusal>
    ensures { result ≡ shares_of stored.now lengths.now }
{
    if bad_lists(lengths, stored.len()) {
        return Err(Refusal::Shares);
    }
    let t = count_kinds(stored);
    if t.bad != 0 {
        return Err(Refusal::Shares);
    }
    let entries = stored.len() as u64;
    let zeros = entries - t.above - t.below;
    Ok(fractions(t.above, zeros, t.below, t.half, entries))
}
