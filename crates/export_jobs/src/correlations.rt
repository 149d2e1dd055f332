// The pair correlations of one configuration, with the options as a number.
ghost use Rattle.std.specs.Prelude.{◌≡◌};
ghost use Rattle.entry_correlations.specs.Correlations.{Correlated};
ghost use Rattle.c_values.specs.Options.{options_numbered};

use c_values::options_numbered;
use refusals::refused;

// As `entry_correlations::correlations`.
#[unsafe(no_mangle)]
pub extern "C" fn copperhook_correlations(
    n: usize,
    floor: usize,
    a: &[usize],
    b: &[usize],
    m: &[f64],
    us: &[usize],
    vs: &[usize],
    factors: &[f64],
    options: usize,
    results: &mut [f64],
    work: &mut [f64],
) -> usize
    ensures { Correlated n floor a.now b.now m.now us.now vs.now
        factors.now (options_numbered options).manner (options_numbered options).arrangement (options_numbered options).caller result results.old results.new work.old work.new }
{
    let asked = options_numbered(options);
    let manner = asked.manner;
    let arrangement = asked.arrangement;
    let caller = asked.caller;
    let answer = entry_correlations::correlations(
        n,
        floor,
        a,
        b,
        m,
        us,
        vs,
        factors,
        manner,
        arrangement,
        caller,
        results,
        work,
    );
    refused(answer)
}
