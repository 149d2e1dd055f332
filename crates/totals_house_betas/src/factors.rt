// The factors of one beta.
ghost use Rattle.std.specs.Prelude.{◌≡◌, false, ℕ, ◌*◌, ◌≤◌, ◌<◌, length, get_or};
ghost use Rattle.std.specs.Float.{nan, binary64};
ghost use Rattle.std.specs.Float.Ieee.{mul};
ghost use Rattle.limits.specs.Limits.{most_edges};
ghost use Rattle.coupling_grid.specs.Grid.{off_grid};
ghost use Rattle.house_table.specs.House.{house_table};
ghost use Rattle.house_factors.specs.Factors.{paired_factors};
ghost use Rattle.totals_house_betas.specs.Betas.{couplings_of};

use house_factors::factor;
use limits::EDGES;

// The most factors of one beta: two for each edge.
pub const FACTORS: usize = 2 * EDGES;

// Writes two factors for each kept edge at this beta: that of sign plus, and next to it that of sign minus.
pub fn lay_beta(table: &[f64; 1025], beta: f64, mag: &[f64], factors: &mut [f64])
    requires { (table.now ≡ house_table) × (length factors.old ≡ 2 * length mag.now) × (length mag.now ≤ most_edges)
        × ((e : ℕ) → e < length mag.now → off_grid (mul binary64 beta (get_or mag.now e nan)) ≡ false) }
    ensures { factors.new ≡ paired_factors (couplings_of beta mag.now) }
{
    for (e, m) in mag.iter().enumerate() {
        let x = beta * *m;
        let plus = factor(table, x, false);
        let minus = factor(table, x, true);
        factors[2 * e] = plus;
        factors[2 * e + 1] = minus;
    }
}
