// The factors of couplings, from the table of house factors.
#![tactic(auto)]

ghost use Rattle.std.specs.Prelude.{◌≡◌, false, ◌≤◌, length, get_or};
ghost use Rattle.std.specs.Float.{nan};
ghost use Rattle.coupling_grid.specs.Grid.{off_grid, some_off_grid};
ghost use Rattle.house_table.specs.House.{house_table};
ghost use Rattle.house_factors.specs.Factors.{factor_of, single_factors};

use coupling_grid::place;
use house_table::table;

// Where the factor of a coupling stands in the table: entry i, and for sign minus entry -i, as far from the other end.
pub fn entry_place(x: f64, minus: bool) -> usize
    requires { off_grid x ≡ false }
    ensures { (result ≤ 1024) × (get_or house_table result nan ≡ factor_of x minus) }
{
    let p = place(x);
    if minus { 1024 - p } else { p }
}

// The factor itself, from a table that the caller has taken.
pub fn factor(table: &[f64; 1025], x: f64, minus: bool) -> f64
    requires { (table.now ≡ house_table) × (off_grid x ≡ false) }
    ensures { result ≡ factor_of x minus }
{
    table[entry_place(x, minus)]
}

fn lay_from(table: &[f64; 1025], couplings: &[f64], factors: &mut [f64])
    requires { (table.now ≡ house_table) × (length factors.old ≡ length couplings.now) × (some_off_grid couplings.now ≡ false) }
    ensures { factors.new ≡ single_factors couplings.now }
{
    for (e, x) in couplings.iter().enumerate() {
        factors[e] = factor(table, *x, false);
    }
}

// Writes one factor for each coupling, that of sign plus.
pub fn lay_single(couplings: &[f64], factors: &mut [f64])
    requires { (length factors.old ≡ length couplings.now) × (some_off_grid couplings.now ≡ false) }
    ensures { factors.new ≡ single_factors couplings.now }
{
    let entries = table();
    lay_from(&entries, couplings, factors);
}
