// The pair correlations of one configuration, with the pairs as a list of records.
ghost use Rattle.std.specs.Prelude.{◌≡◌};
ghost use Rattle.entry_correlations.specs.Correlations.{Correlated};
ghost use Rattle.c_pair_records.specs.Columns.{firsts, seconds};
ghost use Rattle.c_values.specs.Options.{options_numbered};

use c_correlations::correlations_between;
use c_pair_records::{Pair, gather};
use refusals::refused;

// As `copperhook_correlations`, with one list of pairs where that has two lists of ends.
#[unsafe(no_mangle)]
pub extern "C" fn copperhook_correlations_of(
    n: usize,
    floor: usize,
    a: &[usize],
    b: &[usize],
    m: &[f64],
    pairs: &[Pair],
    factors: &[f64],
    options: usize,
    results: &mut [f64],
    work: &mut [f64],
) -> usize
    ensures { Correlated n floor a.now b.now m.now (firsts pairs.now) (seconds pairs.now)
        factors.now (options_numbered options).manner (options_numbered options).arrangement (options_numbered options).caller result results.old results.new work.old work.new }
{
    let answer = correlations_between(
        gather(pairs),
        n,
        floor,
        a,
        b,
        m,
        factors,
        options,
        results,
        work,
    );
    refused(answer)
}
