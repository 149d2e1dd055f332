// The couplings of a graph's kept edges.
ghost use Rattle.std.specs.Prelude.{◌≡◌};
ghost use Rattle.couplings.specs.Couplings.{Coupled};

use refusals::refused;

// As `couplings::couplings`.
#[unsafe(no_mangle)]
pub extern "C" fn copperhook_couplings(
    n: usize,
    a: &[usize],
    b: &[usize],
    m: &[f64],
    betas: &[f64],
    results: &mut [f64],
) -> usize
    ensures { Coupled n a.now b.now m.now betas.now result
        results.old results.new }
{
    refused(couplings::couplings(n, a, b, m, betas, results))
}
