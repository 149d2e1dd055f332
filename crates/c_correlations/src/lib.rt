// The pair correlations of one configuration, with the pairs as ends that were copied.
#![tactic(auto)]

ghost use Rattle.std.specs.Prelude.{◌≤◌};
ghost use Rattle.refusals.specs.Numbers.{refused};
ghost use Rattle.entry_correlations.specs.Correlations.{Correlated};
ghost use Rattle.c_pair_records.specs.Columns.{first_ends, second_ends, most_copied};
ghost use Rattle.c_values.specs.Options.{options_numbered};

use c_pair_records::Ends;
use c_values::options_numbered;
use refusals::Refusal;

// The correlations of the pairs whose ends are held.
pub fn correlations_between(
    e: Ends,
    n: usize,
    floor: usize,
    a: &[usize],
    b: &[usize],
    m: &[f64],
    factors: &[f64],
    options: usize,
    results: &mut [f64],
    work: &mut [f64],
) -> Result<(), Refusal>
    requires { e.count ≤ most_copied }
    ensures { Correlated n floor a.now b.now m.now (first_ends e) (second_ends e)
        factors.now (options_numbered options).manner (options_numbered options).arrangement (options_numbered options).caller (refused result) results.old results.new work.old work.new }
{
    let count = e.count;
    let us = e.us;
    let vs = e.vs;
    let asked = options_numbered(options);
    let manner = asked.manner;
    let arrangement = asked.arrangement;
    let caller = asked.caller;
    entry_correlations::correlations(
        n,
        floor,
        a,
        b,
        m,
        &us[..count],
        &vs[..count],
        factors,
        manner,
        arrangement,
        caller,
        results,
        work,
    )
}
