// 23. Couplings off the grid.
ghost use Rattle.std.specs.Prelude.{◌≡◌, ◌*◌, length, get_or};
ghost use Rattle.std.specs.Float.{nan, binary64};
ghost use Rattle.std.specs.Float.Ieee.{mul};
ghost use Rattle.list_laws.specs.Search.{some};
ghost use Rattle.coupling_grid.specs.Grid.{off_grid};
ghost use Rattle.refusals.specs.Couplings.{all_couplings};
ghost use Rattle.refusals.specs.Request.{bad_coupling_list};

use coupling_grid::off_grid;

// The list of couplings has another length, or a coupling is off the grid or beyond 4 in size.
pub fn bad_couplings(couplings: &[f64], count: usize) -> bool
    ensures { result ≡ bad_coupling_list couplings.now count }
{
    if couplings.len() != count {
        return true;
    }
    for x in couplings {
        if off_grid(*x) {
            return true;
        }
    }
    false
}

// Some coupling of one beta is off the grid.
fn off_products(beta: f64, mag: &[f64]) -> bool
    ensures { result ≡ some (λ e. off_grid (mul binary64 beta (get_or mag.now e nan))) (length mag.now) }
{
    for m in mag {
        if off_grid(beta * *m) {
            return true;
        }
    }
    false
}

// The same of every beta and kept edge: the couplings are worked out where they are asked of, and no list of them is made.
pub fn bad_products(betas: &[f64], mag: &[f64]) -> bool
    ensures { result ≡ bad_coupling_list (all_couplings betas.now mag.now) (length betas.now * length mag.now) }
{
    for beta in betas {
        if off_products(*beta, mag) {
            return true;
        }
    }
    false
}
