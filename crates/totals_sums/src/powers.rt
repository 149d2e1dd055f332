// Powers and sums added to lists.
ghost use Rattle.std.specs.Prelude.{◌≡◌, ◌+◌, ◌≤◌, length, get_or};
ghost use Rattle.std.specs.Float.{nan};
ghost use Rattle.transfer_matrix.specs.Rounded.{ieee};
ghost use Rattle.transfer_matrix.specs.Totals.{square, fourth};
ghost use Rattle.totals_sums.specs.Added.{added_at, added_to};

// The square of each correlation to the squares from `at` on, and its square's square to the fourth powers.
pub fn add_powers(squares: &mut [f64], fourths: &mut [f64], at: usize, c: &[f64])
    requires { (at + length c.now ≤ length squares.old) × (at + length c.now ≤ length fourths.old) }
    ensures squares_after { squares.new ≡ added_at squares.old at (length c.now) (λ p. square ieee (get_or c.now p nan)) }
    ensures fourths_after { fourths.new ≡ added_at fourths.old at (length c.now) (λ p. fourth ieee (get_or c.now p nan)) }
{
    for (p, value) in c.iter().enumerate() {
        let x = *value * *value;
        squares[at + p] = squares[at + p] + x;
        fourths[at + p] = fourths[at + p] + x * x;
    }
}

// A chunk's sums to the totals, entry by entry.
pub fn add_sums(totals: &mut [f64], sums: &[f64])
    requires { length totals.old ≡ length sums.now }
    ensures { totals.new ≡ added_to totals.old (length totals.old) (λ k. get_or sums.now k nan) }
{
    for (k, sum) in sums.iter().enumerate() {
        totals[k] += *sum;
    }
}
