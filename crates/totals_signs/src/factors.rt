// The factors in use, by the signs of a configuration.
ghost use Rattle.std.specs.Prelude.{◌≡◌, cond, ◌+◌, ◌*◌, ◌≤◌, length};
ghost use Rattle.limits.specs.Limits.{most_betas, most_edges};
ghost use Rattle.list_laws.specs.Part.{put};
ghost use Rattle.totals_signs.specs.Signed.{factors_in_use};

// The plus factor of an edge comes first, the minus factor next to it. The edges of all betas are numbered through.
fn factor_at(e: usize, minus: bool) -> usize
    requires { e ≤ most_betas * most_edges }
    ensures { result ≡ 2 * e + cond minus 1 0 }
{
    if minus { 2 * e + 1 } else { 2 * e }
}

// Writes the factors in use at beta b to the room, from `at` on, one for each kept edge. No other function below the entries of totals reads the lent list.
pub fn lay_signed(room: &mut [f64], at: usize, factors: &[f64], b: usize, signs: &[bool])
    requires { (at + length signs.now ≤ length room.old) × (2 * (b * length signs.now + length signs.now) ≤ length factors.now)
        × (b * length signs.now + length signs.now ≤ most_betas * most_edges) }
    ensures { room.new ≡ put room.old at
        (factors_in_use factors.now (length signs.now) b signs.now) }
{
    let first = b * signs.len();
    for (e, minus) in signs.iter().enumerate() {
        room[at + e] = factors[factor_at(first + e, *minus)];
    }
}
